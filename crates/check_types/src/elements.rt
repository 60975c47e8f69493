//! The elements of an enumeration.
ghost use Rattle.std.specs.Prelude.{◌≡◌, ◌<◌, ◌≤◌, length};
ghost use Rattle.mesa_base.specs.declared.limits.TheConstants.{ENUMERATION_ELEMENTS};
ghost use Rattle.interface_records.specs.PlainTypes.{plain};
ghost use Rattle.check_rules.specs.TypeRules as spec;
ghost use Rattle.check_state.specs.Gives.{Gives};
ghost use Rattle.check_state.specs.Views as view;
ghost use Rattle.check_types.specs.Elements as step;

use check_rules::{Cause, CheckFault};
use check_state::{Around, Meaning, State};
use mesa_base::limits::ENUMERATION_ELEMENTS;
use mesa_base::{Identifier, Place};
use mesa_types::TypeTree;
use std::alloc::Global;

/// An element is a constant of the scope in which its enumeration stands.
#[tactic(auto, unfolding(crate::specs::Elements::element, check_state::specs::Views::around))]
fn element(
    name: &Identifier,
    number: u32,
    alloc: Global,
    around: &Around<'_>,
    state: &mut State,
    kind: &TypeTree,
) -> Result<(), CheckFault>
    ensures { Gives (λ _. tt) (step.element (view.around around.now) (plain kind.now) number name.now (view.state state.old)) result (view.state state.new) }
{
    if state.is_declared(name) {
        return Err(CheckFault::At(Cause::TwiceDeclared, name.place));
    }
    let meaning = Meaning::Constant(kind.copy(alloc)?, number);
    if around.is_outermost {
        state.means_at_once(alloc, name, meaning)?;
    } else {
        state.comes(alloc, name, meaning)?;
    }
    Ok(())
}

fn few_elements(
    names: &[Identifier],
    alloc: Global,
    around: &Around<'_>,
    state: &mut State,
    kind: &TypeTree,
) -> Result<(), CheckFault>
    requires { length names.now ≤ ENUMERATION_ELEMENTS }
    ensures { Gives (λ _. tt) (spec.elements (view.around around.now) (plain kind.now) 0 names.now (view.state state.old)) result (view.state state.new) }
{
    for i in 0..names.len() {
        element(&names[i], i as u32, alloc, around, state, kind)?;
    }
    Ok(())
}

/// More elements than an enumeration may have have no words: whether one is declared twice is found all the same.
fn too_many(
    names: &[Identifier],
    place: Place,
    alloc: Global,
    state: &mut State,
) -> Result<(), CheckFault>
    ensures { Gives (λ _. tt) (step.too_many place names.now (view.state state.old)) result (view.state state.new) }
{
    state.announce(alloc, names)?;
    Err(CheckFault::At(Cause::TypeTooLarge, place))
}

/// The elements of an enumeration, which begins at this place, are constants of the scope in which it stands, each with its
/// number.
pub fn declare_elements(
    names: &[Identifier],
    place: Place,
    alloc: Global,
    around: &Around<'_>,
    state: &mut State,
    kind: &TypeTree,
) -> Result<(), CheckFault>
    ensures { Gives (λ _. tt) (step.all_elements (view.around around.now) (plain kind.now) place names.now (view.state state.old)) result (view.state state.new) }
{
    if names.len() <= ENUMERATION_ELEMENTS as usize {
        few_elements(names, alloc, around, state, kind)
    } else {
        too_many(names, place, alloc, state)
    }
}
