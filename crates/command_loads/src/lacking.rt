//! What the host has not of what several images want of the built-in interface.

ghost use Rattle.std.specs.Prelude.{◌≡◌, ◌<◌, All, IfOk, length};
ghost use Rattle.std.specs.Str.{IsAscii};
ghost use Rattle.interface_records.specs.Faces.{iodefs};
ghost use Rattle.command_passes.specs.Stops.{stop_case};
ghost use Rattle.command_loads.specs.Lacking.{FindsLack, LackEnds, LacksAmong, built_in_of};

use crate::ends::refused;
use crate::hosts::is_had;
use command_passes::Stop;
use command_passes::command_rules::Trouble;
use held_trees::LetGo;
use interface_records::{Wanted, WantedItem, io_face};
use machine_ready::named_item;
use mesa_base::{Bytes, OutOfMemory};
use mesa_types::Face;
use object_files::Image;
use std::alloc::Global;

/// An image, by its number, and an item of the built-in interface that it wants and the host has not.
#[derive(Drop)]
pub(crate) struct Lack {
    pub(crate) number: usize,
    pub(crate) item: WantedItem,
}

/// The first of these wanted items of the built-in interface that the host has not.
fn lack_among(
    alloc: Global,
    face: &Face,
    wanteds: &[Wanted],
) -> Result<Option<WantedItem>, OutOfMemory>
    requires { face.now ≡ iodefs.face }
    ensures { IfOk result (LacksAmong (built_in_of wanteds.now)) }
{
    for wanted in wanteds {
        if !is_had(face, wanted) {
            return Ok(Some(named_item(alloc, wanted)?));
        }
    }
    Ok(None)
}

/// The first of these images that wants such an item, with the first of its items.
fn lack_of(alloc: Global, face: &Face, images: &[Image]) -> Result<Option<Lack>, OutOfMemory>
    requires { face.now ≡ iodefs.face }
    ensures { IfOk result (FindsLack images.now) }
{
    for (number, image) in images.iter().enumerate() {
        if let Some(item) = lack_among(alloc, face, image.wanted.as_slice())? {
            return Ok(Some(Lack { number, item }));
        }
    }
    Ok(None)
}

/// The first of these images that wants an item of the built-in interface that the host has not.
pub(crate) fn first_lack(alloc: Global, images: &[Image]) -> Result<Option<Lack>, OutOfMemory>
    ensures { IfOk result (FindsLack images.now) }
{
    let face = io_face(alloc)?;
    let lack = lack_of(alloc, &face, images);
    face.let_go();
    lack
}

/// What ends the call where an image of these bases wants such an item.
pub(crate) fn lacking(alloc: Global, bases: &[Bytes], lack: Lack) -> Stop
    requires plain { All IsAscii bases.now }
    requires one { lack.number < length bases.now }
    ensures { LackEnds bases.now lack (stop_case result) }
{
    let Lack { number, item } = lack;
    refused(alloc, bases[number].as_slice(), Trouble::Unresolved(item))
}
