//! The marks.
ghost use Rattle.std.specs.Prelude.{◌≡◌, [], ◌∷◌, take};
ghost use Rattle.mesa_lexer.specs.Marks.{mark_of, marks};
ghost use Rattle.mesa_lexer.specs.Lexed.{mark_within};

use crate::bytes::begins_with_arrow;
use crate::lexed::Lexed;
use crate::mark::Mark;
use crate::token::Kind;

#[tactic(auto, unfolding(crate::specs::Marks::mark_of, crate::specs::Marks::marks))]
fn of_one(byte: u8) -> Option<Mark>
    ensures { result ≡ mark_of (byte ∷ []) }
{
    match byte {
        b'_' => Some(Mark::Arrow),
        b';' => Some(Mark::Semicolon),
        b':' => Some(Mark::Colon),
        b',' => Some(Mark::Comma),
        b'.' => Some(Mark::Dot),
        b'[' => Some(Mark::LeftBracket),
        b']' => Some(Mark::RightBracket),
        b'(' => Some(Mark::LeftParenthesis),
        b')' => Some(Mark::RightParenthesis),
        b'{' => Some(Mark::LeftBrace),
        b'}' => Some(Mark::RightBrace),
        b'=' => Some(Mark::Equal),
        b'#' => Some(Mark::Sharp),
        b'<' => Some(Mark::Less),
        b'>' => Some(Mark::Greater),
        b'+' => Some(Mark::Plus),
        b'-' => Some(Mark::Minus),
        b'*' => Some(Mark::Star),
        b'/' => Some(Mark::Slash),
        b'!' => Some(Mark::Bang),
        b'~' => Some(Mark::Tilde),
        _ => None,
    }
}

#[tactic(auto, unfolding(crate::specs::Marks::mark_of, crate::specs::Marks::marks))]
fn of_two(first: u8, second: u8) -> Option<Mark>
    ensures { result ≡ mark_of (first ∷ second ∷ []) }
{
    match (first, second) {
        (b'.', b'.') => Some(Mark::DotDot),
        (b'<', b'=') => Some(Mark::AtMost),
        (b'>', b'=') => Some(Mark::AtLeast),
        (b'=', b'>') => Some(Mark::DoubleArrow),
        _ => None,
    }
}

/// The mark with this spelling.
#[tactic(auto, unfolding(crate::specs::Marks::mark_of, crate::specs::Marks::marks))]
fn mark_of(bytes: &[u8]) -> Option<Mark>
    ensures { result ≡ mark_of bytes.now }
{
    match bytes {
        [byte] => of_one(*byte),
        [first, second] => of_two(*first, *second),
        [_, _, _] if begins_with_arrow(bytes) => Some(Mark::Arrow),
        _ => None,
    }
}

fn first(rest: &[u8], most: usize) -> &[u8]
    ensures { result.now ≡ take most rest.now }
{
    &rest[..rest.len().min(most)]
}

/// The longest mark that stands first.
pub fn mark(rest: &[u8]) -> Lexed
    ensures { result ≡ mark_within 3 rest.now }
{
    if let Some(mark) = mark_of(first(rest, 3)) {
        Lexed::Token(rest.len().min(3), Kind::Mark(mark))
    } else if let Some(mark) = mark_of(first(rest, 2)) {
        Lexed::Token(rest.len().min(2), Kind::Mark(mark))
    } else if let Some(mark) = mark_of(first(rest, 1)) {
        Lexed::Token(rest.len().min(1), Kind::Mark(mark))
    } else {
        Lexed::NoToken
    }
}
