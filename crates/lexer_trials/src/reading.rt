//! What tokens a text is to have, and whether it has them.

use mesa_base::Place;
use mesa_lexer::{Kind, Mark, Token, Word, tokens};
use std::alloc::Global;
use std::test::Fail;

#[derive(Clone, Copy)]
pub enum Is<'a> {
    Name(&'a [u8]),
    Word(Word),
    Number(u32),
    Char(u8),
    Text(&'a [u8]),
    Mark(Mark),
}

/// Whether a place is the one of this token, line and column.
pub fn is_at(place: Place, token: u32, line: u32, column: u32) -> bool {
    place.token == token && place.line == line && place.column == column
}

fn is_like(token: &Token, wanted: Is<'_>) -> bool {
    match (&token.kind, wanted) {
        (Kind::Name(name), Is::Name(bytes)) => name.bytes() == bytes,
        (Kind::Word(word), Is::Word(other)) => *word == other,
        (Kind::Number(number), Is::Number(other)) => *number == other,
        (Kind::Char(code), Is::Char(other)) => *code == other,
        (Kind::Text(text), Is::Text(bytes)) => text.as_slice() == bytes,
        (Kind::Mark(mark), Is::Mark(other)) => *mark == other,
        _ => false,
    }
}

/// Whether the text has these tokens and no other.
pub fn reads(alloc: Global, text: &[u8], wanted: &[Is<'_>]) -> Result<bool, Fail> {
    let found = tokens(alloc, text).ok().ok_or("a fault")?;
    let mut are = found.len() == wanted.len();
    for (i, other) in wanted.iter().enumerate() {
        are = are && found.get(i).is_some_and(|token| is_like(token, *other));
    }
    Ok(are)
}

/// Whether the text has these marks and no other token.
pub fn reads_marks(alloc: Global, text: &[u8], wanted: &[Mark]) -> Result<bool, Fail> {
    let found = tokens(alloc, text).ok().ok_or("a fault")?;
    let mut are = found.len() == wanted.len();
    for (i, mark) in wanted.iter().enumerate() {
        are = are
            && found
                .get(i)
                .is_some_and(|token| is_like(token, Is::Mark(*mark)));
    }
    Ok(are)
}
