//! Names and lists of names.
ghost use Rattle.std.specs.Prelude.{◌≡◌};
ghost use Rattle.token_cursor.specs.Parsing.{many};
ghost use Rattle.token_cursor.specs.Running.{Reads};
ghost use Rattle.token_cursor.specs.ReadNames as spec;

use crate::cursor::Cursor;
use crate::fault::Stopped;
use mesa_base::{Identifier, Identifiers, List};
use mesa_lexer::Mark;
use std::alloc::Global;

/// A name, which must come. Unexpected: another token comes, or none.
#[tactic(auto, using(crate::proofs::Taking::choose_by), unfolding(crate::specs::ReadNames::named))]
pub fn named(alloc: Global, tokens: &mut Cursor<'_>) -> Result<Identifier, Stopped>
    ensures { Reads (spec.named tokens.old.rest.now) result tokens.new.rest.now }
{
    match tokens.takes_name(alloc)? {
        Some(name) => Ok(name),
        None => Err(Stopped::Unexpected),
    }
}

/// Names, of which some were taken.
#[tactic(auto, using(crate::proofs::Taking::many_by, crate::proofs::Names::names_eats))]
fn more_names(
    alloc: Global,
    tokens: &mut Cursor<'_>,
    mut all: Identifiers,
) -> Result<Identifiers, Stopped>
    ensures { Reads (many spec.comma spec.names_step all tokens.old.rest.now) result tokens.new.rest.now }
{
    'names: while tokens.takes_mark(Mark::Comma).is_some() {
        all.push(named(alloc, tokens)?)?;
    }
    Ok(all)
}

/// Names with commas between, of which the first was taken. Unexpected: a comma with no name behind it.
#[tactic(auto, unfolding(crate::specs::ReadNames::names_from))]
pub fn names_from(
    alloc: Global,
    tokens: &mut Cursor<'_>,
    first: Identifier,
) -> Result<Identifiers, Stopped>
    ensures { Reads (spec.names_from first tokens.old.rest.now) result tokens.new.rest.now }
{
    let mut all = List::new(alloc);
    all.push(first)?;
    more_names(alloc, tokens, all)
}

/// One name or more, with commas between. Unexpected: a name is lacking.
#[tactic(auto, unfolding(crate::specs::ReadNames::names))]
pub fn names(alloc: Global, tokens: &mut Cursor<'_>) -> Result<Identifiers, Stopped>
    ensures { Reads (spec.names tokens.old.rest.now) result tokens.new.rest.now }
{
    let first = named(alloc, tokens)?;
    names_from(alloc, tokens, first)
}
