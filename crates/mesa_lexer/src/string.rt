//! Characters behind an apostrophe, and strings.
ghost use Rattle.std.specs.Prelude.{◌≡◌, ◌∷◌, ◌+◌, ◌≤◌, length, IfOk};
ghost use Rattle.mesa_lexer.specs.Lexed.{character_lexed, ended, item_at, Runs, Stands, texted};

use crate::bytes::{begins_with, begins_with_arrow, is_plain, is_printed};
use crate::lexed::Lexed;
use crate::token::Kind;
use mesa_base::limits::STRING_BYTES;
use mesa_base::{Bytes, List, OutOfMemory};
use std::alloc::Global;

/// What U+2190 stands for in a string and as a character: 137 octal.
const ARROW: u8 = 0o137;

/// The character of which this stands behind the apostrophe.
pub fn character(behind: &[u8]) -> Lexed
    ensures { result ≡ character_lexed behind.now }
{
    match behind {
        [] => Lexed::NoToken,
        [byte, ..] => {
            if is_printed(*byte) {
                Lexed::Token(2, Kind::Char(*byte))
            } else if begins_with_arrow(behind) {
                Lexed::Token(4, Kind::Char(ARROW))
            } else {
                Lexed::NoToken
            }
        }
    }
}

/// One byte of a string's value, with how many bytes write it: two quotes are one quote.
fn item(rest: &[u8]) -> Option<(usize, u8)>
    ensures { result ≡ item_at rest.now }
{
    match rest {
        [] => None,
        [byte, behind @ ..] => {
            if is_plain(*byte) {
                Some((1, *byte))
            } else if *byte == b'"' && begins_with(b'"', behind) {
                Some((2, b'"'))
            } else if begins_with_arrow(rest) {
                Some((3, ARROW))
            } else {
                None
            }
        }
    }
}

/// The inside of a string as far as it goes: how many bytes it has, and its value.
fn inside(alloc: Global, rest: &[u8]) -> Result<(usize, Bytes), OutOfMemory>
    ensures { IfOk result (λ found. Runs rest.now found.0 found.1) }
{
    let mut value = List::new(alloc);
    let mut at = 0;
    while let Some((count, byte)) = item(&rest[at..]) {
        value.push(byte)?;
        at += count;
    }
    Ok((at, value))
}

fn texted(count: usize, value: Bytes) -> Lexed
    ensures { result ≡ texted count value }
{
    if value.len() > STRING_BYTES {
        Lexed::TooLong
    } else {
        Lexed::Token(count, Kind::Text(value))
    }
}

/// The string whose inside has these bytes behind its quote.
fn ended(behind: &[u8], count: usize, value: Bytes) -> Lexed
    requires { count ≤ length behind.now }
    ensures { result ≡ ended behind.now count value }
{
    if begins_with(b'"', &behind[count..]) {
        texted(count + 2, value)
    } else if count < behind.len() {
        Lexed::Stray(count + 1)
    } else {
        Lexed::Open
    }
}

/// The string of which this stands behind the first quote.
pub fn string(alloc: Global, behind: &[u8]) -> Result<Lexed, OutOfMemory>
    ensures { IfOk result (λ lexed. Stands (34 ∷ behind.now) lexed) }
{
    let (count, value) = inside(alloc, behind)?;
    Ok(ended(behind, count, value))
}
