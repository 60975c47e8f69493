//! What ends a call where a configuration has no tree, an item is bad, a file is not made, or something is left to the loader that the host
//! has not.

ghost use Rattle.std.specs.Prelude.{◌≡◌, ◌++◌};
ghost use Rattle.std.specs.Str.{IsAscii};
ghost use Rattle.command_passes.specs.command_rules.specs.Case.{Refused};
ghost use Rattle.command_passes.specs.command_rules.specs.Forms.{image_file};
ghost use Rattle.command_passes.specs.Stops.{stop_case};
ghost use Rattle.command_sources.specs.Stops.{IsOrMemory, bind_case, ready_case, tree_case, unmade_case};

use command_passes::command_rules::Trouble;
use command_passes::{FileName, Stop, file_named};
use config_rules::TreeFault;
use import_binder::BindFault;
use machine_ready::ReadyFault;
use mesa_base::{OutOfMemory, WriteFault};
use std::alloc::Global;

/// What ends the call where a configuration, or a module alone, has this fault.
pub(crate) fn ungrown(file: FileName, fault: TreeFault) -> Stop
    ensures { stop_case result ≡ tree_case file fault }
{
    match fault {
        TreeFault::At(cause, place) => Stop::Refused(file, Trouble::Tree(cause, place)),
        TreeFault::Memory => Stop::Memory,
    }
}

/// What ends the call where an item of the configuration in this file is bad.
pub(crate) fn unbound(file: FileName, fault: BindFault) -> Stop
    ensures { stop_case result ≡ bind_case file fault }
{
    match fault {
        BindFault::NoExporter(item) => {
            Stop::Refused(file, Trouble::Item(BindFault::NoExporter(item)))
        }
        BindFault::Twice(item, first, second) => {
            Stop::Refused(file, Trouble::Item(BindFault::Twice(item, first, second)))
        }
        BindFault::OtherInterface(item, path) => {
            Stop::Refused(file, Trouble::Item(BindFault::OtherInterface(item, path)))
        }
        BindFault::OtherStamp(item, wanted, found) => {
            Stop::Refused(
                file,
                Trouble::Item(BindFault::OtherStamp(item, wanted, found)),
            )
        }
        BindFault::Memory => Stop::Memory,
    }
}

/// What ends the call where the file of this base and ending would be too large; or memory is wanting for its name.
pub(crate) fn too_large(alloc: Global, base: &[u8], ending: &str) -> Stop
    requires { IsAscii base.now }
    ensures { IsOrMemory (Refused (base.now ++ ending.now) Trouble.TooLarge) (stop_case result) }
{
    match file_named(alloc, base, ending) {
        Ok(file) => Stop::Refused(file, Trouble::TooLarge),
        Err(OutOfMemory) => Stop::Memory,
    }
}

fn not_readied(image: FileName, fault: ReadyFault) -> Stop
    ensures { stop_case result ≡ ready_case image fault }
{
    match fault {
        ReadyFault::Unresolved(item) => Stop::Refused(image, Trouble::Unresolved(item)),
        ReadyFault::Memory => Stop::Memory,
    }
}

/// What ends the call where the image of this base is not made ready; or memory is wanting for its name.
pub(crate) fn unready(alloc: Global, base: &[u8], fault: ReadyFault) -> Stop
    requires { IsAscii base.now }
    ensures { IsOrMemory (ready_case (image_file base.now) fault) (stop_case result) }
{
    match file_named(alloc, base, ".mim") {
        Ok(image) => not_readied(image, fault),
        Err(OutOfMemory) => Stop::Memory,
    }
}

/// What ends the call where the bytes of this file were not made.
pub fn unmade(file: FileName, why: WriteFault) -> Stop
    ensures { stop_case result ≡ unmade_case file why }
{
    match why {
        WriteFault::TooLarge => Stop::Refused(file, Trouble::TooLarge),
        WriteFault::Memory => Stop::Memory,
    }
}
