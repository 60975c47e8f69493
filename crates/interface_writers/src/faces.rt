//! Items and faces as bytes.
ghost use Rattle.std.specs.Prelude.{◌≡◌, [], OnOk};
ghost use Rattle.file_forms.specs.Forms.{FitEach, spell_each};
ghost use Rattle.file_forms.specs.Written.{appended};
ghost use Rattle.face_rules.specs.FaceForms as form;
ghost use Rattle.interface_writers.specs.Elements.{each_item};

use crate::types::put_fields;
use file_forms::FileWriter;
use mesa_base::OutOfMemory;
use mesa_types::{Face, Fields, Item, ItemKind};

#[tactic(auto, unfolding(face_rules::specs::FaceForms::item_kind))]
fn put_kind(out: &mut FileWriter, kind: ItemKind) -> Result<(), OutOfMemory>
    ensures { OnOk result (out.new ≡ appended out.old (form.item_kind.spell kind)) }
{
    match kind {
        ItemKind::Procedure => out.u8(1),
        ItemKind::Signal => out.u8(2),
        ItemKind::Error => out.u8(3),
    }
}

#[tactic(auto, using(file_forms::proofs::WrittenLaws::appended_nothing), unfolding(face_rules::specs::FaceForms::gives))]
fn put_gives(out: &mut FileWriter, kind: ItemKind, gives: &Fields) -> Result<(), OutOfMemory>
    requires { (form.gives 2 kind).fits gives.now }
    ensures { OnOk result (out.new ≡ appended out.old ((form.gives 2 kind).spell gives.now)) }
{
    match kind {
        ItemKind::Procedure => put_fields(out, gives),
        ItemKind::Signal => put_fields(out, gives),
        ItemKind::Error => Ok(()),
    }
}

/// An item.
#[tactic(auto, using(file_forms::proofs::WrittenLaws::appended_twice), unfolding(face_rules::specs::FaceForms::item_named))]
pub fn put_item(out: &mut FileWriter, item: &Item) -> Result<(), OutOfMemory>
    requires { (form.item 2).fits item.now }
    ensures { OnOk result (out.new ≡ appended out.old ((form.item 2).spell item.now)) }
{
    put_kind(out, item.kind)?;
    out.name(&item.name)?;
    put_fields(out, &item.takes)?;
    put_gives(out, item.kind, &item.gives)
}

fn put_items(out: &mut FileWriter, items: &[Item]) -> Result<(), OutOfMemory>
    requires { FitEach each_item [] items.now }
    ensures { OnOk result (out.new ≡ appended out.old (spell_each each_item [] items.now)) }
{
    'items: for item in items {
        if out.is_full() {
            return Ok(());
        }
        put_item(out, item)?;
    }
    Ok(())
}

/// A face.
#[tactic(auto, using(file_forms::proofs::WrittenLaws::appended_twice), unfolding(face_rules::specs::FaceForms::face, face_rules::specs::FaceForms::items))]
pub fn put_face(out: &mut FileWriter, face: &Face) -> Result<(), OutOfMemory>
    requires { (form.face 2).fits face.now }
    ensures { OnOk result (out.new ≡ appended out.old ((form.face 2).spell face.now)) }
{
    out.name(&face.name)?;
    out.stamp(face.stamp)?;
    out.u32(face.items.len() as u32)?;
    put_items(out, face.items.as_slice())
}
