//! From what is bound to the files of its program and the machine that is ready to run it.

ghost use Rattle.std.specs.Prelude.{map, IfOk, IfErr};
ghost use Rattle.std.specs.Str.{IsAscii};
ghost use Rattle.mesa_types.specs.Plain.{plain};
ghost use Rattle.linked_objects.specs.built_runs.specs.Linked.{IsLinkedFrom};
ghost use Rattle.program_files.specs.Files.{AreFilesFor, IsSizeFault};
ghost use Rattle.command_passes.specs.Stops.{stop_case};
ghost use Rattle.command_sources.specs.Bound.{IsBound, configured};
ghost use Rattle.command_sources.specs.Made.{IsMadeOf, Unmade};

use crate::faults::{too_large, unready};
use crate::sources::BoundSource;
use command_passes::Stop;
use held_trees::LetGo;
use linked_objects::linked_programs::readied;
use machine_ready::Machine;
use mesa_base::{Bytes, Texts};
use program_files::{FiledProgram, SizeFault, program_files};
use std::alloc::Global;

/// A program of which nothing is written yet.
pub struct MadeProgram {
    /// The file of the object of each module, in order.
    pub objects: Texts,
    pub image_file: Bytes,
    /// Ready to run that very image.
    pub machine: Machine,
}

impl LetGo for MadeProgram {
    fn let_go(self) {
        let MadeProgram {
            objects: _,
            image_file: _,
            machine,
        } = self;
        machine.let_go();
    }
}

/// What ends the call where a file of the program would be too large: it is refused by its name.
fn oversized(alloc: Global, source: &BoundSource, base: &[u8], fault: SizeFault) -> Stop
    requires ascii { IsAscii base.now }
    requires bound { IsBound source.now }
    requires fault { IsSizeFault source.now.tree (map plain source.now.modules) fault }
    ensures { Unmade (configured source.now) base.now (stop_case result) }
{
    match fault {
        SizeFault::Object(number) => {
            let base = source.bases.as_slice()[number].as_slice();
            too_large(alloc, base, ".mob")
        }
        SizeFault::Image => too_large(alloc, base, ".mim"),
        SizeFault::Memory => Stop::Memory,
    }
}

/// The program of these files with its machine; or what ends the call, where something is left to the loader that the host has not.
fn with_machine(
    alloc: Global,
    source: &BoundSource,
    base: &[u8],
    files: FiledProgram,
) -> Result<MadeProgram, Stop>
    requires ascii { IsAscii base.now }
    requires bound { IsBound source.now }
    requires files { AreFilesFor source.now.tree (map plain source.now.modules) files }
    requires linked { IsLinkedFrom source.now.tree (map plain source.now.modules) files.image }
    ensures ok { IfOk result (IsMadeOf (configured source.now) base.now) }
    ensures err { IfErr result (λ why. Unmade (configured source.now) base.now (stop_case why)) }
{
    let FiledProgram {
        objects,
        image_file,
        image,
    } = files;
    match readied(alloc, &source.tree, &source.modules, image) {
        Ok(machine) => Ok(MadeProgram {
            objects,
            image_file,
            machine,
        }),
        Err(fault) => Err(unready(alloc, base, fault)),
    }
}

/// The files of what is bound, none of which is written here, and the machine of its image; or what ends the call: the first file that would be
/// too large is refused, the objects' in order and then the image's; else the image of this base is, by the first item that is left to the loader
/// and that the host has not.
pub fn made(alloc: Global, source: &BoundSource, base: &[u8]) -> Result<MadeProgram, Stop>
    requires ascii { IsAscii base.now }
    requires bound { IsBound source.now }
    ensures ok { IfOk result (IsMadeOf (configured source.now) base.now) }
    ensures err { IfErr result (λ why. Unmade (configured source.now) base.now (stop_case why)) }
{
    let links = &source.bindings.links;
    match program_files(alloc, &source.tree, &source.modules, links) {
        Ok(files) => with_machine(alloc, source, base, files),
        Err(fault) => Err(oversized(alloc, source, base, fault)),
    }
}
