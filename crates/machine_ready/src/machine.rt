//! An image that is ready to run, and how one is made ready.

ghost use Rattle.std.specs.Prelude.{◌≡◌, ◌<◌, length, All, Some, IsSome, IfOk, IfErr, OnOk, option_map, slice_get};
ghost use Rattle.code_forms.specs.declared.module_code.CodeSignal.{CodeSignal};
ghost use Rattle.object_files.specs.declared.image.Instance.{Instance};
ghost use Rattle.machine_rules.specs.LookUps.{signal_of};
ghost use Rattle.machine_ready.specs.Hosts.{IsHostItem, IsFault};
ghost use Rattle.machine_ready.specs.Order.{ImageInOrder};
ghost use Rattle.machine_ready.specs.Ready.{IsReady};

use crate::fault::ReadyFault;
use crate::globals::code_of;
use crate::hosts::all_from_host;
use crate::prepared::{Prepared, prepare};
use held_trees::LetGo;
use mesa_base::{Name, Path};
use object_files::Image;
use std::alloc::Global;
use std::marker::Model;
use std::mem::drop;

/// An image that is ready to run, with all that the run needs; contracts see the image.
pub struct Machine {
    pub image: Image,
    pub prepared: Prepared,
}

impl Model for Machine {
    ghost use Rattle.object_files.specs.declared.image.Image.{Image};
    ghost use Rattle.machine_ready.specs.Ready.{IsReady};
    ghost use Rattle.object_files.specs.contracts.image.Image as image_row;

    ghost Value = { Image };

    ghost coded = { image_row.the_row.coded };

    ghost view = { λ machine. machine.image };

    ghost invariant = { λ machine. IsReady machine.image machine.prepared };
}

fn let_image_go(image: Image) {
    drop(image);
}

impl LetGo for Machine {
    fn let_go(self) {
        let Machine { image, prepared: _ } = self;
        let_image_go(image);
    }
}

impl Machine {
    /// The path of an instance.
    pub fn path(&self, instance: u32) -> &Path
        requires { instance < length self.now.instances }
        ensures { option_map (λ (i : Instance). i.path) (slice_get self.now.instances instance) ≡ Some result.now }
    {
        &self.image.instances.as_slice()[instance as usize].path
    }

    /// The name of a signal or error of an instance, by its number in the instance's module.
    pub fn signal_name(&self, instance: u32, signal: u32) -> &Name
        requires { IsSome (signal_of self.now instance signal) }
        ensures { option_map (λ (s : CodeSignal). s.name) (signal_of self.now instance signal) ≡ Some result.now }
    {
        let code = code_of(&self.image, instance as usize);
        &code.signals.as_slice()[signal as usize].name
    }
}

fn prepare_if_offered(alloc: Global, image: &Image) -> Result<Prepared, ReadyFault>
    requires { ImageInOrder image.now }
    ensures ok { IfOk result (IsReady image.now) }
    ensures err { IfErr result (IsFault image.now.wanted) }
{
    all_from_host(alloc, image.wanted.as_slice())?;
    Ok(prepare(alloc, image)?)
}

/// The image, ready to run: the run takes no memory any more. It is refused exactly where it wants an item that is none of
/// the host's, by the name and stamp of its interface, kind, name and types; the fault names the first (rule of this
/// project). It takes memory.
pub fn ready(alloc: Global, image: Image) -> Result<Machine, ReadyFault>
    requires { ImageInOrder image }
    ensures ok { IfOk result (λ machine. machine ≡ image) }
    ensures host { OnOk result (All IsHostItem image.wanted) }
    ensures err { IfErr result (IsFault image.wanted) }
{
    match prepare_if_offered(alloc, &image) {
        Ok(prepared) => Ok(Machine { image, prepared }),
        Err(fault) => {
            let_image_go(image);
            Err(fault)
        }
    }
}
