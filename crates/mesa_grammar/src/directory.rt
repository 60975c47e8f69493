//! Lists of names around a module: DIRECTORY, IMPORTS and EXPORTS, OPEN.

ghost use Rattle.std.specs.Prelude.{◌≡◌};
ghost use Rattle.token_cursor.specs.Running.{Reads};
ghost use Rattle.token_cursor.specs.Parsing.{many};
ghost use Rattle.grammar_rules.specs.ReadNested.{comma};
ghost use Rattle.grammar_rules.specs.ReadModules as spec;

use held_trees::{both, pushed};
use mesa_base::{Identifiers, List, Placed};
use mesa_lexer::{Mark, Word};
use std::alloc::Global;
use syntax_trees::syntax::{Directory, DirectoryItem};
use token_cursor::naming::{named, names};
use token_cursor::{Cursor, Stopped};

#[tactic(auto, using(token_cursor::proofs::Choosing::choose_none, token_cursor::proofs::Choosing::choose_some), unfolding(grammar_rules::specs::ReadModules::opened))]
pub fn opened(alloc: Global, tokens: &mut Cursor<'_>) -> Result<Identifiers, Stopped>
    ensures { Reads (spec.opened tokens.old.rest.now) result tokens.new.rest.now }
{
    match tokens.takes_word(Word::OpenWord) {
        Some(_) => {
            let all = names(alloc, tokens)?;
            let (all, _) = both(all, tokens.need_mark(Mark::Semicolon))?;
            Ok(all)
        }
        None => Ok(List::new(alloc)),
    }
}

/// The names behind this word, where it comes.
#[tactic(auto, using(token_cursor::proofs::Choosing::choose_none, token_cursor::proofs::Choosing::choose_some), unfolding(grammar_rules::specs::ReadModules::listed))]
pub fn listed(alloc: Global, tokens: &mut Cursor<'_>, word: Word) -> Result<Identifiers, Stopped>
    ensures { Reads (spec.listed word tokens.old.rest.now) result tokens.new.rest.now }
{
    match tokens.takes_word(word) {
        Some(_) => names(alloc, tokens),
        None => Ok(List::new(alloc)),
    }
}

#[tactic(auto, using(token_cursor::proofs::Choosing::choose_none, token_cursor::proofs::Choosing::choose_some), unfolding(grammar_rules::specs::ReadModules::using_names))]
fn using_names(alloc: Global, tokens: &mut Cursor<'_>) -> Result<Option<Identifiers>, Stopped>
    ensures { Reads (spec.using_names tokens.old.rest.now) result tokens.new.rest.now }
{
    match tokens.takes_mark(Mark::RightBracket) {
        Some(_) => Ok(Some(List::new(alloc))),
        None => {
            let all = names(alloc, tokens)?;
            let (all, _) = both(all, tokens.need_mark(Mark::RightBracket))?;
            Ok(Some(all))
        }
    }
}

/// The names that a module may use of an interface, where it says them.
#[tactic(auto, using(token_cursor::proofs::Choosing::choose_none, token_cursor::proofs::Choosing::choose_some), unfolding(grammar_rules::specs::ReadModules::using))]
fn used(alloc: Global, tokens: &mut Cursor<'_>) -> Result<Option<Identifiers>, Stopped>
    ensures { Reads (spec.using tokens.old.rest.now) result tokens.new.rest.now }
{
    match tokens.takes_word(Word::UsingWord) {
        Some(_) => {
            tokens.need_mark(Mark::LeftBracket)?;
            using_names(alloc, tokens)
        }
        None => Ok(None),
    }
}

#[tactic(auto, using(token_cursor::proofs::Choosing::choose_none, token_cursor::proofs::Choosing::choose_some), unfolding(grammar_rules::specs::ReadModules::item, grammar_rules::specs::ReadModules::file))]
fn item(alloc: Global, tokens: &mut Cursor<'_>) -> Result<DirectoryItem, Stopped>
    ensures { Reads (spec.item tokens.old.rest.now) result tokens.new.rest.now }
{
    let name = named(alloc, tokens)?;
    tokens.need_mark(Mark::Colon)?;
    tokens.need_word(Word::FromWord)?;
    let Some(text) = tokens.takes_text(alloc)? else {
        return Err(Stopped::Unexpected);
    };
    let Placed {
        place: file_place,
        item: file,
    } = text;
    let used = used(alloc, tokens)?;
    Ok(DirectoryItem {
        name,
        file_place,
        file,
        used,
    })
}

/// Further items behind these.
#[tactic(auto, using(token_cursor::proofs::Taking::many_by, grammar_rules::proofs::KeepModules::items_eats))]
fn more_items(
    alloc: Global,
    tokens: &mut Cursor<'_>,
    mut all: Directory,
) -> Result<Directory, Stopped>
    ensures { Reads (many comma spec.items_step all tokens.old.rest.now) result tokens.new.rest.now }
{
    'items: while tokens.takes_mark(Mark::Comma).is_some() {
        let (held, item) = both(all, item(alloc, tokens))?;
        all = pushed(held, item)?;
    }
    Ok(all)
}

#[tactic(auto, unfolding(grammar_rules::specs::ReadModules::items))]
fn items(alloc: Global, tokens: &mut Cursor<'_>) -> Result<Directory, Stopped>
    ensures { Reads (spec.items tokens.old.rest.now) result tokens.new.rest.now }
{
    let first = item(alloc, tokens)?;
    let all = pushed(List::new(alloc), first)?;
    let all = more_items(alloc, tokens, all)?;
    let (all, _) = both(all, tokens.need_mark(Mark::Semicolon))?;
    Ok(all)
}

#[tactic(auto, using(token_cursor::proofs::Choosing::choose_none, token_cursor::proofs::Choosing::choose_some), unfolding(grammar_rules::specs::ReadModules::directory))]
pub fn interfaces(alloc: Global, tokens: &mut Cursor<'_>) -> Result<Directory, Stopped>
    ensures { Reads (spec.directory tokens.old.rest.now) result tokens.new.rest.now }
{
    match tokens.takes_word(Word::DirectoryWord) {
        Some(_) => items(alloc, tokens),
        None => Ok(List::new(alloc)),
    }
}
