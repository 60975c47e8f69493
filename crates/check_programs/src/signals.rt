//! Heads under their names: a procedure has one head, each signal or error has its own.
ghost use Rattle.std.specs.Prelude.{◌≡◌, map, IfOk};
ghost use Rattle.check_programs.specs.Heads as step;
ghost use Rattle.check_state.specs.Gives.{Gives};
ghost use Rattle.check_state.specs.Views as view;
ghost use Rattle.check_rules.specs.Names.{settle};
ghost use Rattle.interface_records.specs.PlainTypes.{plain_item};
ghost use Rattle.check_rules.specs.Programs as spec;

use check_rules::CheckFault;
use check_state::{Meaning, State, next};
use mesa_base::{Identifier, List, OutOfMemory, Shared};
use mesa_types::{Fields, Item, ItemKind, Raised};
use std::alloc::Global;

/// The head under the first of the names, of which there is one at least.
pub fn first_item(
    names: &[Identifier],
    alloc: Global,
    kind: ItemKind,
    takes: Fields,
    gives: Fields,
) -> Result<Item, OutOfMemory>
    ensures { IfOk result (λ made. plain_item made ≡ step.first_item kind (view.fields takes) (view.fields gives) names.now) }
{
    match names {
        [] => Err(OutOfMemory),
        [first, ..] => Ok(Item {
            kind,
            name: first.name.copy(alloc)?,
            takes,
            gives,
        }),
    }
}

fn renamed(name: &Identifier, alloc: Global, head: &Item) -> Result<Shared<Item>, OutOfMemory>
    ensures { IfOk result (λ made. plain_item made ≡ step.renamed (plain_item head.now) name.now) }
{
    let Item {
        kind,
        name: _,
        takes,
        gives,
    } = head.copy(alloc)?;
    let name = name.name.copy(alloc)?;
    Shared::new(
        alloc,
        Item {
            kind,
            name,
            takes,
            gives,
        },
    )
}

/// The head under each of the names.
pub fn renamed_all(
    names: &[Identifier],
    alloc: Global,
    head: &Item,
) -> Result<List<Shared<Item>>, OutOfMemory>
    ensures { IfOk result (λ made. map plain_item made ≡ map (step.renamed (plain_item head.now)) names.now) }
{
    let mut items = List::new(alloc);
    for name in names {
        items.push(renamed(name, alloc, head)?)?;
    }
    Ok(items)
}

/// Each name means its signal, the first that of this number, from here on.
pub fn settle_signals(
    names: &[Identifier],
    alloc: Global,
    first: u32,
    items: &[Shared<Item>],
    state: &mut State,
) -> Result<(), CheckFault>
    ensures { Gives (λ _. tt) (settle names.now (spec.signal_meanings first (map plain_item items.now)) (view.state state.old)) result (view.state state.new) }
{
    let mut number = first;
    for i in 0..names.len().min(items.len()) {
        let meaning = Meaning::Signal(Raised::OwnSignal(number), items[i].share()?);
        state.comes(alloc, &names[i], meaning)?;
        number = next(number)?;
    }
    state.show(alloc)?;
    Ok(())
}
