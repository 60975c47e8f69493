//! What a link is bound to.
ghost use Rattle.std.specs.Prelude.{◌≡◌, ◌==◌, map, bytes_eq, slice_get, option_map};
ghost use Rattle.std.specs.Option.{option_copied};
ghost use Rattle.file_forms.specs.Forms.{number, ruled, between, choose};
ghost use Rattle.file_forms.specs.Reads.{Reads};
ghost use Rattle.mesa_base.specs.declared.file_fault.Field.TheVariants.{Kind};
ghost use Rattle.mesa_types.specs.declared.faces.Face.{Face as OneFace};
ghost use Rattle.object_readers.specs.Rows.{module_part};
ghost use Rattle.object_rules.specs.ImageForms as form;
ghost use Rattle.object_rules.specs.Numbers.{number_where};

use crate::lookups::module_of;
use crate::numbers::number_below;
use file_forms::{FileCursor, Stopped};
use held_objects::{ImageHead, ManyRows, ModuleRows};
use interface_records::{Wanted, Wanteds, same_signature};
use mesa_base::{Field, Name};
use mesa_types::{Face, Item};
use object_files::{Instances, Link};
use object_readers::gives;
use typed_answers::same_name;

fn is_spelled(a: &Name, b: &Name) -> bool
    ensures { result ≡ bytes_eq a.now b.now }
{
    same_name(a, b)
}

fn is_like(a: &Item, b: &Item) -> bool
    ensures { result ≡ form.same_signature a.now b.now }
{
    same_signature(a, b)
}

// Whether what is wanted is this item of this interface: equal names and stamps, and the kind and types of the item.
fn is_entry(face: &Face, item: &Item, entry: &Wanted) -> bool
    ensures { result ≡ form.is_wanted (Some (form.needed_of face.now item.now)) (Some entry.now) }
{
    is_spelled(&entry.face, &face.name)
        && entry.stamp.number() == face.stamp.number()
        && is_spelled(&entry.item.name, &item.name)
        && is_like(&entry.item, item)
}

fn is_wanted(face: &Face, item: &Item, wanted: &Wanteds, number: u32) -> bool
    ensures { result ≡ form.is_wanted (Some (form.needed_of face.now item.now)) (slice_get wanted.now number) }
{
    match wanted.get(number as usize) {
        Some(entry) => is_entry(face, item, entry),
        None => false,
    }
}

// Number: there is no such wanted item, or it is another.
#[tactic(auto, unfolding(object_rules::specs::ImageForms::wanted_link))]
fn wanted_link(
    input: &mut FileCursor<'_>,
    wanted: &Wanteds,
    face: &Face,
    item: &Item,
) -> Result<Link, Stopped>
    ensures { Reads ((form.wanted_link wanted.now (Some (form.needed_of face.now item.now))).read input.old.rest.now) result input.new.rest.now }
{
    let left = input.rest.len();
    let number = input.u32()?;
    if !is_wanted(face, item, wanted, number) {
        return Err(Stopped::Bad(Field::Number, left));
    }
    Ok(Link::Wanted(number))
}

fn is_given(item: &Item, rows: Option<&ModuleRows>, number: u32) -> bool
    ensures { (face : OneFace) → result ≡ form.is_given (Some (form.needed_of face item.now)) (option_map module_part (option_copied rows.entry)) number }
{
    match rows {
        Some(rows) => gives(&rows.body.signals, &rows.body.procedures, item, number),
        None => false,
    }
}

fn is_given_by(
    modules: &ManyRows,
    instances: &Instances,
    instance: u32,
    item: &Item,
    number: u32,
) -> bool
    ensures { (face : OneFace) → result ≡ form.is_given (Some (form.needed_of face item.now)) (form.module_at (map module_part modules.now) (slice_get instances.now instance)) number }
{
    is_given(
        item,
        module_of(modules, instances, instance as usize),
        number,
    )
}

// Number: the module of the instance has no such procedure above 0 or signal, or it isn't of the item's kind and sizes.
fn target(
    input: &mut FileCursor<'_>,
    modules: &ManyRows,
    instances: &Instances,
    instance: u32,
    item: &Item,
) -> Result<u32, Stopped>
    ensures { (face : OneFace) → Reads ((number_where 4 (form.is_given (Some (form.needed_of face item.now)) (form.module_at (map module_part modules.now) (slice_get instances.now instance)))).read input.old.rest.now) result input.new.rest.now }
{
    let left = input.rest.len();
    let number = input.u32()?;
    if !is_given_by(modules, instances, instance, item, number) {
        return Err(Stopped::Bad(Field::Number, left));
    }
    Ok(number)
}

#[tactic(auto, unfolding(object_rules::specs::ImageForms::bound_link))]
fn bound_link(
    input: &mut FileCursor<'_>,
    modules: &ManyRows,
    instances: &Instances,
    item: &Item,
) -> Result<Link, Stopped>
    ensures { (face : OneFace) → Reads ((form.bound_link (map module_part modules.now) instances.now (Some (form.needed_of face item.now))).read input.old.rest.now) result input.new.rest.now }
{
    let instance = number_below(input, instances.len())?;
    let number = match target(input, modules, instances, instance, item) {
        Ok(number) => number,
        Err(why) => return Err(why),
    };
    Ok(Link::To { instance, number })
}

// Kind: there is no such link.
fn tag(input: &mut FileCursor<'_>) -> Result<u8, Stopped>
    ensures { Reads ((ruled (number 1) (between 1 2) Kind).read input.old.rest.now) result input.new.rest.now }
{
    let left = input.rest.len();
    let tag = input.u8()?;
    if tag != 1 && tag != 2 {
        return Err(Stopped::Bad(Field::Kind, left));
    }
    Ok(tag)
}

fn link_at(
    input: &mut FileCursor<'_>,
    head: &ImageHead,
    instances: &Instances,
    face: &Face,
    item: &Item,
    tag: u8,
) -> Result<Link, Stopped>
    ensures { Reads ((choose (tag == 1) (form.wanted_link head.now.wanted (Some (form.needed_of face.now item.now))) (form.bound_link (map module_part head.now.modules) instances.now (Some (form.needed_of face.now item.now)))).read input.old.rest.now) result input.new.rest.now }
{
    match tag {
        1 => wanted_link(input, &head.wanted, face, item),
        _ => bound_link(input, &head.modules, instances, item),
    }
}

/// A link for this item of this interface.
#[tactic(auto, unfolding(object_rules::specs::ImageForms::link))]
pub(crate) fn link(
    input: &mut FileCursor<'_>,
    head: &ImageHead,
    instances: &Instances,
    face: &Face,
    item: &Item,
) -> Result<Link, Stopped>
    ensures { Reads ((form.link (map module_part head.now.modules) head.now.wanted instances.now (Some (form.needed_of face.now item.now))).read input.old.rest.now) result input.new.rest.now }
{
    let tag = tag(input)?;
    link_at(input, head, instances, face, item, tag)
}
