//! Items and faces.
ghost use Rattle.std.specs.Prelude.{◌≡◌, ◌++◌, ◌∷◌, [], List as Values, ℕ, IfOk};
ghost use Rattle.file_forms.specs.Forms.{pair, several};
ghost use Rattle.file_forms.specs.Names.{fresh_name};
ghost use Rattle.file_forms.specs.Reads.{Reads};
ghost use Rattle.file_forms.specs.Seen.{Shows};
ghost use Rattle.face_rules.specs.TypeForms as types;
ghost use Rattle.face_rules.specs.FaceForms as form;

use crate::trees::fields;
use file_forms::{FileCursor, Seen, Stopped};
use held_trees::{LetGo, both, pushed};
use mesa_base::limits::TYPE_DEPTH;
use mesa_base::{Field, List, OutOfMemory};
use mesa_types::{Face, Fields, Item, ItemKind, Items};
use std::alloc::Global;

#[tactic(auto, unfolding(face_rules::specs::FaceForms::item_kind))]
fn item_kind(input: &mut FileCursor<'_>) -> Result<ItemKind, Stopped>
    ensures { Reads (form.item_kind.read input.old.rest.now) result input.new.rest.now }
{
    let left = input.rest.len();
    match input.u8()? {
        1 => Ok(ItemKind::Procedure),
        2 => Ok(ItemKind::Signal),
        3 => Ok(ItemKind::Error),
        _ => Err(Stopped::Bad(Field::Kind, left)),
    }
}

#[tactic(auto, unfolding(face_rules::specs::FaceForms::gives))]
fn gives(
    alloc: Global,
    input: &mut FileCursor<'_>,
    version: u8,
    kind: ItemKind,
) -> Result<Fields, Stopped>
    ensures { Reads ((form.gives version kind).read input.old.rest.now) result input.new.rest.now }
{
    match kind {
        ItemKind::Procedure => fields(alloc, input, version, TYPE_DEPTH, 0),
        ItemKind::Signal => fields(alloc, input, version, TYPE_DEPTH, 0),
        ItemKind::Error => Ok(List::new(alloc)),
    }
}

fn sides(
    alloc: Global,
    input: &mut FileCursor<'_>,
    version: u8,
    kind: ItemKind,
) -> Result<(Fields, Fields), Stopped>
    ensures { Reads ((pair (types.fields version) (λ _. form.gives version kind)).read input.old.rest.now) result input.new.rest.now }
{
    let takes = fields(alloc, input, version, TYPE_DEPTH, 0)?;
    both(takes, gives(alloc, input, version, kind))
}

/// An item.
#[tactic(auto, unfolding(face_rules::specs::FaceForms::item_named))]
pub fn item(alloc: Global, input: &mut FileCursor<'_>, version: u8) -> Result<Item, Stopped>
    ensures { Reads ((form.item version).read input.old.rest.now) result input.new.rest.now }
{
    let kind = item_kind(input)?;
    let name = input.name(alloc)?;
    let (takes, gives) = sides(alloc, input, version, kind)?;
    Ok(Item {
        kind,
        name,
        takes,
        gives,
    })
}

// An item whose name is none of those before.
#[tactic(auto, unfolding(face_rules::specs::FaceForms::item_named))]
fn fresh_item(
    alloc: Global,
    input: &mut FileCursor<'_>,
    version: u8,
    seen: &Seen,
) -> Result<Item, Stopped>
    ensures { (before : Values (Values ℕ)) → Shows seen.now before → Reads ((form.item_named (fresh_name before) version).read input.old.rest.now) result input.new.rest.now }
{
    let kind = item_kind(input)?;
    let name = input.fresh_name(alloc, seen)?;
    let (takes, gives) = sides(alloc, input, version, kind)?;
    Ok(Item {
        kind,
        name,
        takes,
        gives,
    })
}

// The items with one more, whose name is added to the index of theirs.
fn with_item(alloc: Global, all: Items, seen: &mut Seen, item: Item) -> Result<Items, OutOfMemory>
    requires { Shows seen.old (form.item_names all) }
    ensures { IfOk result (λ more. (more ≡ all ++ item ∷ []) × Shows seen.new (form.item_names more)) }
{
    let added = seen.add(alloc, item.name.bytes());
    let ((all, item), _) = both((all, item), added)?;
    pushed(all, item)
}

fn each_item(
    alloc: Global,
    input: &mut FileCursor<'_>,
    version: u8,
    seen: &mut Seen,
    count: u32,
) -> Result<Items, Stopped>
    requires { Shows seen.old [] }
    ensures read { Reads ((several count (λ before. form.item_named (fresh_name (form.item_names before)) version)).read input.old.rest.now) result input.new.rest.now }
    ensures seen { IfOk result (λ all. Shows seen.new (form.item_names all)) }
{
    let mut all = List::new(alloc);
    'items: for _ in 0..count {
        let item = match fresh_item(alloc, input, version, seen) {
            Ok(item) => item,
            Err(why) => {
                all.let_go();
                return Err(why);
            }
        };
        all = with_item(alloc, all, seen, item)?;
    }
    Ok(all)
}

/// A face, and its items' names put into an index that has none.
#[tactic(auto, unfolding(face_rules::specs::FaceForms::face, face_rules::specs::FaceForms::items))]
pub fn face(
    alloc: Global,
    input: &mut FileCursor<'_>,
    version: u8,
    seen: &mut Seen,
) -> Result<Face, Stopped>
    requires { Shows seen.old [] }
    ensures read { Reads ((form.face version).read input.old.rest.now) result input.new.rest.now }
    ensures seen { IfOk result (λ face. Shows seen.new (form.item_names face.items)) }
{
    let name = input.name(alloc)?;
    let stamp = input.stamp()?;
    let count = input.count_from(0)?;
    let items = each_item(alloc, input, version, seen, count)?;
    Ok(Face { name, stamp, items })
}
