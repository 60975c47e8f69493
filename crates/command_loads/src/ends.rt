//! What ends a call where images that were read are not run.

ghost use Rattle.std.specs.Prelude.{◌≡◌, ◌≢◌, ◌<◌, All, MatchOption, length};
ghost use Rattle.std.specs.Str.{IsAscii};
ghost use Rattle.loader_rules.specs.declared.fault.LoadFault.TheVariants.{Memory};
ghost use Rattle.command_passes.specs.command_rules.specs.Case.{Refused};
ghost use Rattle.command_passes.specs.command_rules.specs.Forms.{image_file};
ghost use Rattle.command_passes.specs.command_rules.specs.Loading.{faulty};
ghost use Rattle.command_passes.specs.Stops.{stop_case};
ghost use Rattle.command_loads.specs.Stops.{IsOrMemory, LoadEnds, ready_case};

use command_passes::command_rules::Trouble;
use command_passes::{Stop, file_named};
use loader_rules::LoadFault;
use machine_ready::ReadyFault;
use mesa_base::{Bytes, OutOfMemory};
use std::alloc::Global;

/// What ends the call where the image of this base is refused; or memory is wanting for its name.
pub(crate) fn refused(alloc: Global, base: &[u8], why: Trouble) -> Stop
    requires { IsAscii base.now }
    ensures { IsOrMemory (Refused (image_file base.now) why) (stop_case result) }
{
    match file_named(alloc, base, ".mim") {
        Ok(file) => Stop::Refused(file, why),
        Err(OutOfMemory) => Stop::Memory,
    }
}

/// What ends the call where the image of this base is not made ready.
pub(crate) fn unready(alloc: Global, base: &[u8], fault: ReadyFault) -> Stop
    requires { IsAscii base.now }
    ensures { IsOrMemory (ready_case (image_file base.now) fault) (stop_case result) }
{
    match fault {
        ReadyFault::Unresolved(item) => refused(alloc, base, Trouble::Unresolved(item)),
        ReadyFault::Memory => Stop::Memory,
    }
}

/// The number of the image that a fault is of; want of memory is of none.
fn faulty_image(fault: &LoadFault) -> Option<usize>
    ensures { MatchOption result (fault.now ≡ Memory) (λ number. (number ≡ faulty fault.now) × (fault.now ≢ Memory)) }
{
    match fault {
        LoadFault::NoExporter(number, _)
        | LoadFault::Twice(number, _, _, _)
        | LoadFault::OtherStamp(number, _, _, _)
        | LoadFault::FaceDiffers(number, _)
        | LoadFault::OddRecord(number, _)
        | LoadFault::TooManyInstances(number)
        | LoadFault::TooNested(number) => Some(*number as usize),
        LoadFault::Memory => None,
    }
}

/// What ends the call where the images of these bases are not loaded.
pub(crate) fn unloaded(alloc: Global, bases: &[Bytes], fault: LoadFault) -> Stop
    requires plain { All IsAscii bases.now }
    requires one { fault ≢ Memory → faulty fault < length bases.now }
    ensures { LoadEnds bases.now fault (stop_case result) }
{
    match faulty_image(&fault) {
        Some(number) => refused(alloc, bases[number].as_slice(), Trouble::Load(fault)),
        None => Stop::Memory,
    }
}
