//! Literals, which count their words.
ghost use Rattle.check_state.specs.Gives.{Gives};
ghost use Rattle.check_state.specs.Views as words;
ghost use Rattle.check_expressions.specs.Lists as lists;

use check_operands::check_values::{finish, number, string};
use check_rules::CheckFault;
use check_state::{Aim, Around, State, Typed, size};
use held_trees::both;
use mesa_base::Place;
use std::alloc::Global;

/// A literal of one word.
pub(crate) fn one_word(
    alloc: Global,
    state: &mut State,
    aim: Aim<'_>,
    found: Typed,
) -> Result<Typed, CheckFault>
    ensures { Gives words.typed (lists.one_word (words.aim aim.entry) (words.typed found) (words.state state.old)) result (words.state state.new) }
{
    let (found, _) = both(found, state.spend(1))?;
    finish(alloc, aim, found)
}

/// A number, of one word or of two.
pub(crate) fn number_literal(
    alloc: Global,
    state: &mut State,
    aim: Aim<'_>,
    n: u32,
) -> Result<Typed, CheckFault>
    ensures { Gives words.typed (lists.number_literal (words.aim aim.entry) n (words.state state.old)) result (words.state state.new) }
{
    let found = number(n);
    let words = size(&found.kind);
    let (found, words) = both(found, words)?;
    let (found, _) = both(found, state.spend(words))?;
    finish(alloc, aim, found)
}

/// A string literal, of two words.
#[tactic(auto, unfolding(check_state::specs::Views::around, check_state::specs::Views::known))]
pub(crate) fn text(
    alloc: Global,
    around: &Around<'_>,
    state: &mut State,
    aim: Aim<'_>,
    place: Place,
    bytes: &[u8],
) -> Result<Typed, CheckFault>
    ensures { Gives words.typed (lists.text (words.around around.now).known.strings (words.aim aim.entry) place bytes.now (words.state state.old)) result (words.state state.new) }
{
    let found = string(&around.known.strings, place, bytes)?;
    let (found, _) = both(found, state.spend(2))?;
    finish(alloc, aim, found)
}
