//! The name or word that begins with a letter.
ghost use Rattle.std.specs.Prelude.{◌≡◌, IfOk, IsTrue};
ghost use Rattle.mesa_base.specs.Name.{begins_with_letter};
ghost use Rattle.mesa_lexer.specs.Lexed.{identifier_lexed};

use crate::bytes::letters_and_digits;
use crate::lexed::Lexed;
use crate::token::Kind;
use crate::vocabulary::word_of;
use mesa_base::{Name, OutOfMemory};
use std::alloc::Global;

/// The name or word whose first letter stands first.
pub fn identifier(alloc: Global, rest: &[u8]) -> Result<Lexed, OutOfMemory>
    requires { IsTrue (begins_with_letter rest.now) }
    ensures { IfOk result (λ lexed. lexed ≡ identifier_lexed rest.now) }
{
    let count = letters_and_digits(rest);
    let spelling = &rest[..count];
    if let Some(word) = word_of(spelling) {
        return Ok(Lexed::Token(count, Kind::Word(word)));
    }
    let Some(name) = Name::new(alloc, spelling)? else {
        return Ok(Lexed::TooLong);
    };
    Ok(Lexed::Token(count, Kind::Name(name)))
}
