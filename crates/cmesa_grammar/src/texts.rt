//! The files of components, which stand before the outermost configuration.

ghost use Rattle.std.specs.Prelude.{◌≡◌};
ghost use Rattle.token_cursor.specs.Running.{Reads};
ghost use Rattle.token_cursor.specs.Parsing.{many};
ghost use Rattle.cmesa_grammar.specs.ReadConfigs.{comma};
ghost use Rattle.cmesa_grammar.specs.ReadConfigs as spec;

use crate::syntax::{ComponentFile, ComponentFiles};
use held_trees::{both, pushed};
use mesa_base::{List, Placed};
use mesa_lexer::{Mark, Word};
use std::alloc::Global;
use token_cursor::naming::named;
use token_cursor::{Cursor, Stopped};

#[tactic(auto, using(token_cursor::proofs::Choosing::choose_none, token_cursor::proofs::Choosing::choose_some), unfolding(crate::specs::ReadConfigs::item))]
fn item(alloc: Global, tokens: &mut Cursor<'_>) -> Result<ComponentFile, Stopped>
    ensures { Reads (spec.item tokens.old.rest.now) result tokens.new.rest.now }
{
    let name = named(alloc, tokens)?;
    tokens.need_mark(Mark::Colon)?;
    tokens.need_word(Word::FromWord)?;
    let Some(text) = tokens.takes_text(alloc)? else {
        return Err(Stopped::Unexpected);
    };
    let Placed {
        place: file_place,
        item: file,
    } = text;
    Ok(ComponentFile {
        name,
        file_place,
        file,
    })
}

/// Further items behind these.
#[tactic(auto, using(token_cursor::proofs::Taking::many_by, crate::proofs::Keep::items_eats))]
fn more_items(
    alloc: Global,
    tokens: &mut Cursor<'_>,
    mut all: ComponentFiles,
) -> Result<ComponentFiles, Stopped>
    ensures { Reads (many comma spec.items_step all tokens.old.rest.now) result tokens.new.rest.now }
{
    'items: while tokens.takes_mark(Mark::Comma).is_some() {
        let (held, item) = both(all, item(alloc, tokens))?;
        all = pushed(held, item)?;
    }
    Ok(all)
}

#[tactic(auto, unfolding(crate::specs::ReadConfigs::items))]
fn items(alloc: Global, tokens: &mut Cursor<'_>) -> Result<ComponentFiles, Stopped>
    ensures { Reads (spec.items tokens.old.rest.now) result tokens.new.rest.now }
{
    let first = item(alloc, tokens)?;
    let all = pushed(List::new(alloc), first)?;
    let all = more_items(alloc, tokens, all)?;
    let (all, _) = both(all, tokens.need_mark(Mark::Semicolon))?;
    Ok(all)
}

/// The files of components, where DIRECTORY comes.
#[tactic(auto, using(token_cursor::proofs::Choosing::choose_none, token_cursor::proofs::Choosing::choose_some), unfolding(crate::specs::ReadConfigs::directory))]
pub fn component_files(alloc: Global, tokens: &mut Cursor<'_>) -> Result<ComponentFiles, Stopped>
    ensures { Reads (spec.directory tokens.old.rest.now) result tokens.new.rest.now }
{
    match tokens.takes_word(Word::DirectoryWord) {
        Some(_) => items(alloc, tokens),
        None => Ok(List::new(alloc)),
    }
}
