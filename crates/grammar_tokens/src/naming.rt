//! Names of the items of an interface, and the labels of arms and of the ends of loops.
ghost use Rattle.std.specs.Prelude.{◌≡◌};
ghost use Rattle.token_cursor.specs.Parsing.{many};
ghost use Rattle.token_cursor.specs.Running.{Reads};
ghost use Rattle.grammar_rules.specs.ReadNested as spec;

use mesa_base::{Identifier, List};
use mesa_lexer::{Mark, Word};
use std::alloc::Global;
use syntax_trees::syntax::{Labels, QualifiedName, RepeatLabels};
use token_cursor::naming::{named, names};
use token_cursor::{Cursor, Stopped};

/// A name that a dot and another name may follow; the first was taken. Unexpected: a dot with no name behind it.
#[tactic(auto, using(token_cursor::proofs::Taking::choose_by), unfolding(grammar_rules::specs::ReadNested::qname_from))]
pub fn qname_from(
    alloc: Global,
    tokens: &mut Cursor<'_>,
    first: Identifier,
) -> Result<QualifiedName, Stopped>
    ensures { Reads (spec.qname_from first tokens.old.rest.now) result tokens.new.rest.now }
{
    let second = match tokens.takes_mark(Mark::Dot) {
        Some(_) => Some(named(alloc, tokens)?),
        None => None,
    };
    Ok(QualifiedName { first, second })
}

/// A name that a dot and another name may follow. Unexpected: a name is lacking.
#[tactic(auto, unfolding(grammar_rules::specs::ReadNested::qname))]
pub fn qname(alloc: Global, tokens: &mut Cursor<'_>) -> Result<QualifiedName, Stopped>
    ensures { Reads (spec.qname tokens.old.rest.now) result tokens.new.rest.now }
{
    let first = named(alloc, tokens)?;
    qname_from(alloc, tokens, first)
}

#[tactic(auto, using(token_cursor::proofs::Taking::many_by, grammar_rules::proofs::Names::qnames_eats))]
fn more_qnames(
    alloc: Global,
    tokens: &mut Cursor<'_>,
    mut all: List<QualifiedName>,
) -> Result<List<QualifiedName>, Stopped>
    ensures { Reads (many spec.comma spec.qnames_step all tokens.old.rest.now) result tokens.new.rest.now }
{
    'qnames: while tokens.takes_mark(Mark::Comma).is_some() {
        all.push(qname(alloc, tokens)?)?;
    }
    Ok(all)
}

#[tactic(auto, unfolding(grammar_rules::specs::ReadNested::qnames))]
fn qnames(alloc: Global, tokens: &mut Cursor<'_>) -> Result<List<QualifiedName>, Stopped>
    ensures { Reads (spec.qnames tokens.old.rest.now) result tokens.new.rest.now }
{
    let mut all = List::new(alloc);
    all.push(qname(alloc, tokens)?)?;
    more_qnames(alloc, tokens, all)
}

/// The labels of an arm: ANY, UNWIND, or names of signals. Unexpected: a name is lacking.
#[tactic(auto, using(token_cursor::proofs::Choosing::choose_none, token_cursor::proofs::Choosing::choose_some), unfolding(grammar_rules::specs::ReadNested::labels))]
pub fn labels(alloc: Global, tokens: &mut Cursor<'_>) -> Result<Labels, Stopped>
    ensures { Reads (spec.labels tokens.old.rest.now) result tokens.new.rest.now }
{
    if let Some(place) = tokens.takes_word(Word::AnyWord) {
        return Ok(Labels::Any(place));
    }
    match tokens.takes_word(Word::UnwindWord) {
        Some(place) => Ok(Labels::Unwind(place)),
        None => Ok(Labels::Signals(qnames(alloc, tokens)?)),
    }
}

/// The labels of an end of a loop: FINISHED, or names. Unexpected: a name is lacking.
#[tactic(auto, using(token_cursor::proofs::Taking::choose_by), unfolding(grammar_rules::specs::ReadNested::repeat_labels))]
pub fn repeat_labels(alloc: Global, tokens: &mut Cursor<'_>) -> Result<RepeatLabels, Stopped>
    ensures { Reads (spec.repeat_labels tokens.old.rest.now) result tokens.new.rest.now }
{
    match tokens.takes_word(Word::FinishedWord) {
        Some(place) => Ok(RepeatLabels::Finished(place)),
        None => Ok(RepeatLabels::Named(names(alloc, tokens)?)),
    }
}
