//! Instances of components.

ghost use Rattle.std.specs.Prelude.{◌≡◌};
ghost use Rattle.token_cursor.specs.Running.{Reads};
ghost use Rattle.cmesa_grammar.specs.ReadConfigs as spec;

use crate::lists::arguments;
use crate::syntax::{ConfigStatement, Instantiation};
use held_trees::both;
use mesa_base::{Identifier, Identifiers, Place};
use mesa_lexer::Mark;
use std::alloc::Global;
use token_cursor::naming::{named, names};
use token_cursor::{Cursor, Stopped};

/// An instance whose component was taken.
#[tactic(auto, unfolding(crate::specs::ReadConfigs::instance))]
pub fn instance(
    alloc: Global,
    tokens: &mut Cursor<'_>,
    place: Place,
    records: Identifiers,
    name: Option<Identifier>,
    component: Identifier,
) -> Result<ConfigStatement, Stopped>
    ensures { Reads (spec.instance place records name component tokens.old.rest.now) result tokens.new.rest.now }
{
    let head = (records, (name, component));
    let (head, arguments) = both(head, arguments(alloc, tokens))?;
    let (records, (name, component)) = head;
    Ok(ConfigStatement::Instantiate(Instantiation {
        place,
        records,
        name,
        component,
        arguments,
    }))
}

/// An instance whose own name and colon were taken.
#[tactic(auto, unfolding(crate::specs::ReadConfigs::named_instance))]
pub fn named_instance(
    alloc: Global,
    tokens: &mut Cursor<'_>,
    place: Place,
    records: Identifiers,
    name: Identifier,
) -> Result<ConfigStatement, Stopped>
    ensures { Reads (spec.named_instance place records name tokens.old.rest.now) result tokens.new.rest.now }
{
    let (head, component) = both((records, name), named(alloc, tokens))?;
    let (records, name) = head;
    instance(alloc, tokens, place, records, Some(name), component)
}

/// An instance behind the arrow.
#[tactic(auto, using(token_cursor::proofs::Choosing::choose_none, token_cursor::proofs::Choosing::choose_some), unfolding(crate::specs::ReadConfigs::made))]
pub fn made(
    alloc: Global,
    tokens: &mut Cursor<'_>,
    place: Place,
    records: Identifiers,
) -> Result<ConfigStatement, Stopped>
    ensures { Reads (spec.made place records tokens.old.rest.now) result tokens.new.rest.now }
{
    let (records, first) = both(records, named(alloc, tokens))?;
    match tokens.takes_mark(Mark::Colon) {
        Some(_) => named_instance(alloc, tokens, place, records, first),
        None => instance(alloc, tokens, place, records, None, first),
    }
}

/// An instance behind the bracket of its records.
#[tactic(auto, unfolding(crate::specs::ReadConfigs::recorded))]
pub fn recorded(
    alloc: Global,
    tokens: &mut Cursor<'_>,
    place: Place,
) -> Result<ConfigStatement, Stopped>
    ensures { Reads (spec.recorded place tokens.old.rest.now) result tokens.new.rest.now }
{
    let records = names(alloc, tokens)?;
    let (records, _) = both(records, tokens.need_mark(Mark::RightBracket))?;
    let (records, _) = both(records, tokens.need_mark(Mark::Arrow))?;
    made(alloc, tokens, place, records)
}
