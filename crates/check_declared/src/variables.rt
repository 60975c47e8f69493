//! Variables, with numbers in the order in which they are declared.
ghost use Rattle.std.specs.Prelude.{◌≡◌, ◌+◌, map, nat_le};
ghost use Rattle.mesa_base.specs.declared.limits.TheConstants.{OPERAND_WORDS};
ghost use Rattle.check_rules.specs.Names.{settle};
ghost use Rattle.check_rules.specs.Parts as parts;
ghost use Rattle.interface_records.specs.PlainTypes.{plain};
ghost use Rattle.check_rules.specs.Statements as spec;
ghost use Rattle.check_rules.specs.Steps.{only};
ghost use Rattle.check_rules.specs.declared.fault.Cause.TheVariants.{FrameTooLarge};
ghost use Rattle.check_state.specs.Gives.{Gives, GivesOnly};
ghost use Rattle.check_state.specs.Views as view;
ghost use Rattle.check_declared.specs.Naming.{declared};

use check_jumps::next_local;
use check_rules::{Cause, CheckFault};
use check_state::{Around, Meaning, State, narrow};
use mesa_base::limits::{GLOBAL_WORDS, OPERAND_WORDS};
use mesa_base::{Identifier, List, Place};
use mesa_types::{Home, Homes, TypeTree};
use std::alloc::Global;

#[tactic(auto, unfolding(check_state::specs::Views::state, check_state::specs::Views::around))]
fn local(
    kind: &TypeTree,
    alloc: Global,
    around: &Around<'_>,
    state: &mut State,
) -> Result<Home, CheckFault>
    ensures { Gives (λ h. h) (spec.local (view.around around.now) (plain kind.now) (view.state state.old)) result (view.state state.new) }
{
    let number = next_local(around, state)?;
    state.variables.push(alloc, kind)?;
    Ok(Home::Local(number))
}

#[tactic(auto, unfolding(check_state::specs::Views::state))]
fn global(kind: &TypeTree, alloc: Global, state: &mut State) -> Result<Home, CheckFault>
    ensures { Gives (λ h. h) (spec.global (plain kind.now) (view.state state.old)) result (view.state state.new) }
{
    let number = narrow(state.globals.count())?;
    state.globals.push(alloc, kind)?;
    Ok(Home::Global(number))
}

/// A variable more of the module or the procedure.
#[tactic(auto, unfolding(check_state::specs::Views::around))]
fn variable(
    kind: &TypeTree,
    alloc: Global,
    around: &Around<'_>,
    state: &mut State,
) -> Result<Home, CheckFault>
    ensures { Gives (λ h. h) (spec.variable (view.around around.now) (plain kind.now) (view.state state.old)) result (view.state state.new) }
{
    if around.is_outermost {
        global(kind, alloc, state)
    } else {
        local(kind, alloc, around, state)
    }
}

fn variables(
    names: &[Identifier],
    kind: &TypeTree,
    alloc: Global,
    around: &Around<'_>,
    state: &mut State,
) -> Result<Homes, CheckFault>
    ensures { Gives (λ hs. hs) (spec.variables (view.around around.now) (plain kind.now) names.now (view.state state.old)) result (view.state state.new) }
{
    let mut homes = List::new(alloc);
    for _name in names {
        homes.push(variable(kind, alloc, around, state)?)?;
    }
    Ok(homes)
}

/// The words of the globals are limited.
#[tactic(auto, unfolding(check_state::specs::Views::state))]
pub fn few_globals(state: &State, place: Place) -> Result<(), CheckFault>
    ensures { Gives (λ _. tt) (spec.few_globals place (view.state state.now)) result (view.state state.now) }
{
    if state.globals.words() <= u64::from(GLOBAL_WORDS) {
        Ok(())
    } else {
        Err(CheckFault::At(Cause::GlobalsTooLarge, place))
    }
}

/// The words of a statement's operands are limited.
pub fn few_operands(before: u64, words: u64, place: Place) -> Result<(), CheckFault>
    ensures { GivesOnly (λ _. tt) (only (nat_le (before + words) OPERAND_WORDS) FrameTooLarge place) result }
{
    match before.checked_add(words) {
        Some(both) if both <= u64::from(OPERAND_WORDS) => Ok(()),
        _ => Err(CheckFault::At(Cause::FrameTooLarge, place)),
    }
}

/// The first of the names of a declaration, which has one at least.
pub fn first_name(names: &[Identifier]) -> Place
    ensures { result ≡ parts.first_name names.now }
{
    match names {
        [first, ..] => first.place,
        [] => Place {
            token: 0,
            line: 1,
            column: 1,
        },
    }
}

fn name_variables(
    names: &[Identifier],
    homes: &[Home],
    kind: &TypeTree,
    alloc: Global,
    state: &mut State,
) -> Result<(), CheckFault>
    ensures { Gives (λ _. tt) (settle names.now (map (spec.meaning_of (plain kind.now)) homes.now) (view.state state.old)) result (view.state state.new) }
{
    for i in 0..names.len().min(homes.len()) {
        let meaning = Meaning::Variable(homes[i], kind.copy(alloc)?);
        state.comes(alloc, &names[i], meaning)?;
    }
    state.show(alloc)?;
    Ok(())
}

/// Variables of a type, visible from here on.
pub fn declare_variables(
    names: &[Identifier],
    kind: &TypeTree,
    alloc: Global,
    around: &Around<'_>,
    state: &mut State,
) -> Result<Homes, CheckFault>
    ensures { Gives (λ hs. hs) (declared (view.around around.now) names.now (plain kind.now) (view.state state.old)) result (view.state state.new) }
{
    let homes = variables(names, kind, alloc, around, state)?;
    few_globals(state, first_name(names))?;
    name_variables(names, homes.as_slice(), kind, alloc, state)?;
    Ok(homes)
}
