//! Lists of names: those of a heading, and the arguments of an instance.

ghost use Rattle.std.specs.Prelude.{◌≡◌};
ghost use Rattle.token_cursor.specs.Running.{Reads};
ghost use Rattle.cmesa_grammar.specs.ReadConfigs as spec;

use held_trees::both;
use mesa_base::{Identifiers, List};
use mesa_lexer::{Mark, Word};
use std::alloc::Global;
use token_cursor::naming::names;
use token_cursor::{Cursor, Stopped};

/// The names behind this word, where it comes.
#[tactic(auto, using(token_cursor::proofs::Choosing::choose_none, token_cursor::proofs::Choosing::choose_some), unfolding(crate::specs::ReadConfigs::listed))]
pub fn listed(alloc: Global, tokens: &mut Cursor<'_>, word: Word) -> Result<Identifiers, Stopped>
    ensures { Reads (spec.listed word tokens.old.rest.now) result tokens.new.rest.now }
{
    match tokens.takes_word(word) {
        Some(_) => names(alloc, tokens),
        None => Ok(List::new(alloc)),
    }
}

/// Arguments behind their bracket.
#[tactic(auto, using(token_cursor::proofs::Choosing::choose_none, token_cursor::proofs::Choosing::choose_some), unfolding(crate::specs::ReadConfigs::in_arguments))]
fn in_arguments(alloc: Global, tokens: &mut Cursor<'_>) -> Result<Identifiers, Stopped>
    ensures { Reads (spec.in_arguments tokens.old.rest.now) result tokens.new.rest.now }
{
    match tokens.takes_mark(Mark::RightBracket) {
        Some(_) => Ok(List::new(alloc)),
        None => {
            let all = names(alloc, tokens)?;
            let (all, _) = both(all, tokens.need_mark(Mark::RightBracket))?;
            Ok(all)
        }
    }
}

/// The arguments of an instance, where it has any.
#[tactic(auto, using(token_cursor::proofs::Choosing::choose_none, token_cursor::proofs::Choosing::choose_some), unfolding(crate::specs::ReadConfigs::arguments))]
pub fn arguments(alloc: Global, tokens: &mut Cursor<'_>) -> Result<Identifiers, Stopped>
    ensures { Reads (spec.arguments tokens.old.rest.now) result tokens.new.rest.now }
{
    match tokens.takes_mark(Mark::LeftBracket) {
        Some(_) => in_arguments(alloc, tokens),
        None => Ok(List::new(alloc)),
    }
}
