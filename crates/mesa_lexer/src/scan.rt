//! The scan of a text for its tokens, or for its first fault.
ghost use Rattle.std.specs.Prelude.{◌≡◌, ◌≢◌, ◌+◌, ◌^◌, ◌<◌, ◌≤◌, length, IfOk, IfErr, MatchResult};
ghost use Rattle.mesa_lexer.specs.Lexed.{Stands};
ghost use Rattle.mesa_lexer.specs.Advances.{Refuses, Advances};
ghost use Rattle.mesa_lexer.specs.Tokens.{HasLexFault, HasTokens};
ghost use Rattle.mesa_lexer.specs.declared.fault.LexFault.{LexFault};
ghost use Rattle.mesa_lexer.specs.declared.token.Tokens.{Tokens};

use crate::bytes::{begins_with_hyphens, is_blank};
use crate::comment::comment;
use crate::fault::LexFault;
use crate::identifier::identifier;
use crate::lexed::Lexed;
use crate::longest_mark::mark;
use crate::number::number;
use crate::position::Position;
use crate::string::{character, string};
use crate::token::{Token, Tokens};
use mesa_base::limits::TEXT_BYTES;
use mesa_base::{List, OutOfMemory, is_digit, is_letter};
use std::alloc::Global;

/// What stands first in the rest of a text.
fn lex(alloc: Global, rest: &[u8]) -> Result<Lexed, OutOfMemory>
    requires { 0 < length rest.now }
    ensures { IfOk result (λ lexed. Stands rest.now lexed) }
{
    let first = rest[0];
    if is_blank(first) {
        Ok(Lexed::Gap(1))
    } else if begins_with_hyphens(rest) {
        Ok(Lexed::Gap(comment(&rest[2..]) + 2))
    } else if is_letter(first) {
        identifier(alloc, rest)
    } else if is_digit(first) {
        Ok(number(rest))
    } else if first == b'\'' {
        Ok(character(&rest[1..]))
    } else if first == b'"' {
        string(alloc, &rest[1..])
    } else {
        Ok(mark(rest))
    }
}

/// Passes a gap or a token that stands first, and puts the token behind the others; it gives the count of bytes passed.
fn advance(
    alloc: Global,
    rest: &[u8],
    position: Position,
    items: &mut List<Token>,
) -> Result<usize, LexFault>
    requires some { 0 < length rest.now }
    requires lines { position.line + length rest.now < 2 ^ 32 }
    requires columns { position.column + length rest.now < 2 ^ 32 }
    requires few { length items.old < 2 ^ 32 }
    ensures ok { IfOk result (λ count. Advances rest.now position items.old count items.new) }
    ensures err { IfErr result (λ fault. fault ≢ LexFault.Memory → Refuses rest.now position (length items.old) fault) }
{
    let place = position.place(items.len());
    match lex(alloc, rest)? {
        Lexed::Gap(count) => Ok(count),
        Lexed::Token(count, kind) => {
            items.push(Token { kind, place })?;
            Ok(count)
        }
        Lexed::NoToken => Err(LexFault::BadByte(place)),
        Lexed::Stray(count) => Err(LexFault::BadByte(
            position.behind(&rest[..count]).place(items.len()),
        )),
        Lexed::Open => Err(LexFault::OpenString(place)),
        Lexed::TooLarge => Err(LexFault::NumberTooLarge(place)),
        Lexed::TooLong => Err(LexFault::TokenTooLong(place)),
    }
}

fn scan(alloc: Global, text: &[u8]) -> Result<Tokens, LexFault>
    requires { length text.now ≤ TEXT_BYTES }
    ensures ok { IfOk result (λ tokens. HasTokens text.now tokens) }
    ensures fault { IfErr result (λ fault. fault ≢ LexFault.Memory → HasLexFault text.now fault) }
{
    let mut items = List::new(alloc);
    let mut position = Position::start();
    let mut at = 0;
    while at < text.len() {
        let rest = &text[at..];
        let count = advance(alloc, rest, position, &mut items)?;
        position = position.behind(&rest[..count]);
        at += count;
    }
    let end = position.place(items.len());
    Ok(Tokens::new(items, end))
}

/// The tokens of a text, each the longest form at its place, or the first fault in the text. TextTooLong comes before
/// all else.
pub fn tokens(alloc: Global, text: &[u8]) -> Result<Tokens, LexFault>
    ensures ok { IfOk result (λ tokens. HasTokens text.now tokens) }
    ensures fault { IfErr result (λ fault. fault ≢ LexFault.Memory → HasLexFault text.now fault) }
    // Where the text has tokens they are the answer, and where it has a fault that is, but for want of memory.
    ensures only_tokens { (tokens : Tokens) → HasTokens text.now tokens
        → MatchResult result (λ found. found ≡ tokens) (λ fault. fault ≡ LexFault.Memory) }
    ensures only_fault { (fault : LexFault) → HasLexFault text.now fault
        → MatchResult result (λ tokens. ⊥) (λ found. found ≢ LexFault.Memory → found ≡ fault) }
{
    if text.len() > TEXT_BYTES {
        return Err(LexFault::TextTooLong);
    }
    scan(alloc, text)
}
