//! The image whose turn it is.

ghost use Rattle.std.specs.Prelude.{◌≤◌, [], OnOk, length};
ghost use Rattle.load_checks.specs.Turns.{part_of, after, IsSeen, HasRoom};

use crate::exporters::{OfferIndex, note_image};
use indexmap::IndexMap;
use mesa_base::OutOfMemory;
use object_files::Image;
use std::alloc::Global;

/// An image, and those before it.
#[derive(Clone, Copy)]
pub struct Turn<'a> {
    pub before: &'a [Image],
    pub image: &'a Image,
}

/// What is kept of the images before: how many they are, how many instances and modules they have, and who offers what.
#[derive(Drop)]
pub struct Seen<'a> {
    pub images: u32,
    pub instances: u32,
    pub modules: u32,
    pub index: OfferIndex<'a>,
}

/// Of no image.
pub fn nothing_seen<'a>(alloc: Global) -> Seen<'a>
    ensures { IsSeen [] result }
{
    Seen {
        images: 0,
        instances: 0,
        modules: 0,
        index: IndexMap::new(alloc),
    }
}

/// With the image whose turn it is.
pub fn see<'a>(alloc: Global, turn: &Turn<'a>, seen: &mut Seen<'a>) -> Result<(), OutOfMemory>
    requires seen { IsSeen turn.now.before.now seen.old }
    requires room { HasRoom (part_of turn.now) }
    requires few { length turn.now.before.now ≤ 15 }
    ensures { OnOk result (IsSeen (after (part_of turn.now)) seen.new) }
{
    note_image(
        alloc,
        &mut seen.index,
        turn.image,
        seen.images,
        seen.instances,
    )?;
    seen.images += 1;
    seen.instances += turn.image.instances.len() as u32;
    seen.modules += turn.image.modules.len() as u32;
    Ok(())
}
