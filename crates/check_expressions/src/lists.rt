//! What is asked of lists before their values, and lists without values.
ghost use Rattle.check_rules.specs.interface_records.specs.PlainTypes as v;
ghost use Rattle.check_state.specs.Gives.{Gives, GivesOnly};
ghost use Rattle.check_state.specs.Views as words;
ghost use Rattle.check_operands.specs.Lists as parts;
ghost use Rattle.check_operands.specs.Views as view;
ghost use Rattle.check_expressions.specs.Lists as lists;

use check_operands::check_selectors::{Shape, shape_of};
use check_operands::{Arguments, At, Raises, bare_raise, nothing_given};
use check_rules::{Cause, CheckFault};
use check_state::{Aim, State, Typed};
use mesa_base::Place;
use mesa_types::{FieldType, TypeTree};
use std::alloc::Global;

/// The type that a constructor has from its target, and where the expression begins that goes there.
pub(crate) fn target_of<'a>(aim: Aim<'a>) -> Result<(&'a TypeTree, Place), CheckFault>
    ensures { GivesOnly (λ x. (v.plain x.0.now, x.1)) (lists.target (words.aim aim.entry)) result }
{
    match aim {
        Aim::Free(start) | Aim::Several(start) => Err(CheckFault::At(Cause::TypeMismatch, start)),
        Aim::Into(kind, start) => Ok((kind, start)),
    }
}

/// A constructor without values.
pub(crate) fn nothing_in(kind: &TypeTree, at: (Place, Place)) -> Result<Typed, CheckFault>
    ensures { GivesOnly words.typed (lists.nothing_in (v.plain kind.now) at.0 at.1) result }
{
    match shape_of(kind) {
        Shape::NoShape => Err(CheckFault::At(Cause::TypeMismatch, at.0)),
        Shape::OfFields(_) | Shape::OfElements(_, _) => {
            Err(CheckFault::At(Cause::WrongCount, at.1))
        }
    }
}

/// No values for these parameters.
pub(crate) fn none_given(
    alloc: Global,
    fields: &[FieldType],
    place: Place,
) -> Result<Arguments, CheckFault>
    ensures { GivesOnly view.arguments (lists.none_given (words.fields fields.now) place) result }
{
    if !fields.is_empty() {
        return Err(CheckFault::At(Cause::WrongCount, place));
    }
    Ok(nothing_given(alloc))
}

/// A raise without brackets.
pub(crate) fn bare(
    alloc: Global,
    state: &mut State,
    place: Place,
    what: Raises,
) -> Result<At, CheckFault>
    ensures { Gives view.at (lists.at_place place (parts.bare_raise place (view.raises what)) (words.state state.old)) result (words.state state.new) }
{
    let reached = bare_raise(alloc, state, place, what)?;
    Ok(At {
        last: place,
        reached,
    })
}
