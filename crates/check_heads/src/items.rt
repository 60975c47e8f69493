//! Items of the names that have one head.
ghost use Rattle.std.specs.Prelude.{◌≡◌, map, IfOk, OnOk};
ghost use Rattle.check_rules.specs.Definitions as spec;
ghost use Rattle.check_rules.specs.Names.{coming};
ghost use Rattle.interface_records.specs.PlainTypes.{plain_item};
ghost use Rattle.check_rules.specs.Programs.{named_item as item_named};
ghost use Rattle.check_state.specs.Gives.{Gives};
ghost use Rattle.check_state.specs.Views as words;
ghost use Rattle.check_heads.specs.Forms as form;
ghost use Rattle.check_heads.specs.Views as view;

use crate::heads::Heading;
use check_rules::CheckFault;
use check_state::{Meaning, State, copied_fields};
use held_trees::{both, pushed, shared};
use mesa_base::{Identifier, List, OutOfMemory};
use mesa_types::{Callee, Item, ItemKind, Items, Raised};
use std::alloc::Global;

/// The item of this kind and name with this head.
fn named_item(
    name: &Identifier,
    alloc: Global,
    kind: ItemKind,
    head: &Heading,
) -> Result<Item, OutOfMemory>
    ensures { IfOk result (λ made. plain_item made ≡ item_named kind (view.heading head.now) name.now) }
{
    let takes = copied_fields(head.takes.as_slice(), alloc)?;
    let (takes, gives) = both(takes, copied_fields(head.gives.as_slice(), alloc))?;
    let ((takes, gives), name) = both((takes, gives), name.name.copy(alloc))?;
    Ok(Item {
        kind,
        name,
        takes,
        gives,
    })
}

/// What the name of an item of an interface means in it. No number of the item is ever seen.
fn item_meaning(alloc: Global, item: &Item) -> Result<Meaning, OutOfMemory>
    ensures { IfOk result (λ made. words.meaning made ≡ spec.item_meaning item.now.kind (plain_item item.now)) }
{
    let head = shared(alloc, item.copy(alloc)?)?;
    match item.kind {
        ItemKind::Procedure => Ok(Meaning::Procedure(Callee::OwnProcedure(0), head)),
        ItemKind::Signal | ItemKind::Error => Ok(Meaning::Signal(Raised::OwnSignal(0), head)),
    }
}

fn item_name(
    name: &Identifier,
    alloc: Global,
    state: &mut State,
    kind: ItemKind,
    head: &Heading,
) -> Result<Item, OutOfMemory>
    ensures item { IfOk result (λ made. plain_item made ≡ item_named kind (view.heading head.now) name.now) }
    ensures state { OnOk result (words.state state.new ≡ coming name.now.name (spec.item_meaning kind (item_named kind (view.heading head.now) name.now)) (words.state state.old)) }
{
    let item = named_item(name, alloc, kind, head)?;
    let meaning = item_meaning(alloc, &item);
    let (item, meaning) = both(item, meaning)?;
    let (item, _) = both(item, state.comes(alloc, name, meaning))?;
    Ok(item)
}

/// Items of this kind with these names, visible from here on.
#[tactic(auto, unfolding(crate::specs::Forms::item_names))]
pub(crate) fn item_names(
    names: &[Identifier],
    alloc: Global,
    state: &mut State,
    kind: ItemKind,
    head: &Heading,
) -> Result<Items, CheckFault>
    ensures { Gives (map plain_item) (form.item_names kind names.now (view.heading head.now) (words.state state.old)) result (words.state state.new) }
{
    let mut items = List::new(alloc);
    for name in names {
        let (held, item) = both(items, item_name(name, alloc, state, kind, head))?;
        items = pushed(held, item)?;
    }
    let (items, _) = both(items, state.show(alloc))?;
    Ok(items)
}
