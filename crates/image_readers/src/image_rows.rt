//! The rows of an image.
ghost use Rattle.std.specs.Prelude.{map, All, IfOk};
ghost use Rattle.file_forms.specs.Reads.{ReadsAs};
ghost use Rattle.image_readers.specs.Rows.{tail_parts, tail_form, image_part};
ghost use Rattle.object_readers.specs.Rows.{module_part, RowsFit};
ghost use Rattle.object_rules.specs.ImageForms as form;

use crate::instance_rows::instances;
use crate::module_list::modules;
use crate::numbers::numbers_below;
use crate::offer_rows::offers;
use crate::tables::link_tables;
use crate::wanted_rows::wanted;
use file_forms::{FileCursor, Stopped};
use held_objects::ImageHead;
use held_trees::{LetGo, both};
use mesa_base::Numbers;
use object_files::{Instances, LinkTables, Offers};
use std::alloc::Global;
use std::mem::drop;

/// What an image has behind its modules and what it wants.
#[derive(Drop)]
pub struct ImageTail {
    pub instances: Instances,
    pub links: LinkTables,
    pub offered: Offers,
    pub control: Numbers,
}

/// An image as its file has it.
pub struct ImageRows {
    pub head: ImageHead,
    pub tail: ImageTail,
}

impl LetGo for ImageRows {
    fn let_go(self) {
        let ImageRows { head, tail } = self;
        head.let_go();
        drop(tail);
    }
}

#[tactic(auto, unfolding(crate::specs::Rows::tail_form))]
fn tail(alloc: Global, input: &mut FileCursor<'_>, head: &ImageHead) -> Result<ImageTail, Stopped>
    ensures { ReadsAs tail_parts ((tail_form (map module_part head.now.modules) head.now.wanted).read input.old.rest.now) result input.new.rest.now }
{
    let instances = instances(alloc, input, &head.modules)?;
    let links = link_tables(alloc, input, head, &instances)?;
    let offered = offers(alloc, input, &head.modules, &instances)?;
    let control = numbers_below(alloc, input, instances.len())?;
    Ok(ImageTail {
        instances,
        links,
        offered,
        control,
    })
}

/// An image.
#[tactic(auto, unfolding(object_rules::specs::ImageForms::image_form, crate::specs::Rows::tail_form))]
pub(crate) fn image_rows(
    alloc: Global,
    input: &mut FileCursor<'_>,
    version: u8,
) -> Result<ImageRows, Stopped>
    ensures read { ReadsAs image_part ((form.image_form version).read input.old.rest.now) result input.new.rest.now }
    ensures whole { IfOk result (λ r. All RowsFit r.head.modules) }
{
    let modules = modules(alloc, input, version)?;
    let wanted = wanted(alloc, input, version);
    let (modules, wanted) = both(modules, wanted)?;
    let head = ImageHead { modules, wanted };
    let tail = tail(alloc, input, &head);
    let (head, tail) = both(head, tail)?;
    Ok(ImageRows { head, tail })
}
