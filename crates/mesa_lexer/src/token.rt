//! Tokens, and the list of those of a text.
ghost use Rattle.std.specs.Prelude.{◌≡◌, length, slice_get};
ghost use Rattle.std.specs.Option.{option_copied};

use crate::mark::Mark;
use crate::word::Word;
use mesa_base::{Bytes, List, Name, Place};

/// What a token is, with its value. A `_`, or U+2190, inside a text or as a character is the byte 137 octal.
#[derive(Drop)]
pub enum Kind {
    Name(Name),
    Word(Word),
    Number(u32),
    Char(u8),
    Text(Bytes),
    Mark(Mark),
}

/// A token and where its first byte stands.
#[derive(Drop)]
pub struct Token {
    pub kind: Kind,
    pub place: Place,
}

/// The tokens of a text. Only `tokens` makes them.
#[derive(Drop)]
pub struct Tokens {
    items: List<Token>,
    end: Place,
}

impl Tokens {
    pub(crate) fn new(items: List<Token>, end: Place) -> Tokens
        ensures { result ≡ record { items = items; end = end } }
    {
        Tokens { items, end }
    }

    /// How many tokens there are.
    pub fn len(&self) -> usize
        ensures { result ≡ length self.now.items }
    {
        self.items.len()
    }

    /// The token at the place, from 0; None exactly where the place is not below the length.
    pub fn get(&self, at: usize) -> Option<&Token>
        ensures { option_copied result ≡ slice_get self.now.items at }
    {
        self.items.get(at)
    }

    /// The tokens in order.
    pub fn as_slice(&self) -> &[Token]
        ensures { result.now ≡ self.now.items }
    {
        self.items.as_slice()
    }

    /// The place past the last byte of the text.
    pub fn end(&self) -> Place
        ensures { result ≡ self.now.end }
    {
        self.end
    }
}
