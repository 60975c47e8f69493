//! Relations and IN, whose literals count one word more where they take a LONG type.
ghost use Rattle.check_operands.specs.check_values.specs.Views as values;
ghost use Rattle.check_state.specs.Gives.{Gives};
ghost use Rattle.check_state.specs.Views as words;
ghost use Rattle.check_expressions.specs.Lists as lists;

use check_operands::check_values::{
    Ends, compared, finish, longer, longer_bounds, longer_number, sort_of, within,
};
use check_rules::CheckFault;
use check_state::{Aim, State, Typed};
use held_trees::both;
use mesa_base::{Place, Relation};
use std::alloc::Global;

/// A relation as it is written: whether NOT or ~ stands before it, and where it stands.
#[derive(Clone, Copy)]
pub(crate) struct Comparing {
    pub is_negated: bool,
    pub relation: Relation,
    pub place: Place,
}

/// A relation between two operands, each with the place where it begins.
pub(crate) fn comparison(
    alloc: Global,
    state: &mut State,
    aim: Aim<'_>,
    operator: Comparing,
    left: (Place, Typed),
    right: (Place, Typed),
) -> Result<Typed, CheckFault>
    ensures { Gives words.typed (lists.comparison (words.aim aim.entry) operator.is_negated operator.relation operator.place left.0 (words.typed left.1) right.0 (words.typed right.1) (words.state state.old)) result (words.state state.new) }
{
    let (start, left) = left;
    let (other, right) = right;
    let words = longer(
        sort_of(&left.kind),
        left.literal,
        sort_of(&right.kind),
        right.literal,
    );
    let Comparing {
        is_negated,
        relation,
        place,
    } = operator;
    let found = compared(
        alloc, is_negated, relation, place, start, left, other, right,
    )?;
    let (found, _) = both(found, state.spend(words))?;
    finish(alloc, aim, found)
}

/// IN, at the first place, of a number that begins at the second.
pub(crate) fn inclusion(
    alloc: Global,
    state: &mut State,
    aim: Aim<'_>,
    is_negated: bool,
    at: (Place, Place),
    number: Typed,
    ends: Ends,
) -> Result<Typed, CheckFault>
    ensures { Gives words.typed (lists.inclusion (words.aim aim.entry) is_negated at.0 at.1 (words.typed number) (values.ends ends) (words.state state.old)) result (words.state state.new) }
{
    let (place, start) = at;
    let words = longer_number(&number, &ends) + longer_bounds(&number, &ends);
    let found = within(alloc, is_negated, place, start, number, ends)?;
    let (found, _) = both(found, state.spend(words))?;
    finish(alloc, aim, found)
}
