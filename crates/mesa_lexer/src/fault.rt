//! Why a text has no list of tokens, and why the tokens of a text are none of a grammar.
ghost use Rattle.std.specs.Prelude.{◌≡◌};
ghost use Rattle.mesa_lexer.specs.Faults.{lexical_name, lexical_place, syntax_name, syntax_place};

use mesa_base::{OutOfMemory, Place};
use std::alloc::{AllocError, AllocFailed};

/// Why a text has no list of tokens: the first fault in the text, at its place.
#[derive(Clone, Copy)]
pub enum LexFault {
    /// No token begins with this byte, or it may not stand in the string that holds it.
    BadByte(Place),
    /// The text ends inside this string.
    OpenString(Place),
    /// The number is above 4,294,967,295, or the character's code above 255.
    NumberTooLarge(Place),
    /// The identifier has more than 255 bytes, or the string's value more than 32,767.
    TokenTooLong(Place),
    /// The text has more than 1,048,576 bytes.
    TextTooLong,
    Memory,
}

/// Why the tokens of a text are none of a grammar.
#[derive(Clone, Copy)]
pub enum SyntaxFault {
    /// The tokens up to this one begin no text of the grammar, or at the text's end they are none.
    Unexpected(Place),
    /// Here begins what stands inside too many others.
    TooDeep(Place),
    Memory,
}

impl LexFault {
    /// The cause as a line that names it shows it.
    pub fn name(&self) -> &'static str
        ensures { result.now ≡ lexical_name self.now }
    {
        match self {
            LexFault::BadByte(_) => "BadByte",
            LexFault::OpenString(_) => "OpenString",
            LexFault::NumberTooLarge(_) => "NumberTooLarge",
            LexFault::TokenTooLong(_) => "TokenTooLong",
            LexFault::TextTooLong => "TextTooLong",
            LexFault::Memory => "Memory",
        }
    }

    /// Where the fault stands; a text that is too long and want of memory stand nowhere.
    pub fn place(&self) -> Option<Place>
        ensures { result ≡ lexical_place self.now }
    {
        match self {
            LexFault::BadByte(place)
            | LexFault::OpenString(place)
            | LexFault::NumberTooLarge(place)
            | LexFault::TokenTooLong(place) => Some(*place),
            LexFault::TextTooLong | LexFault::Memory => None,
        }
    }
}

impl From<OutOfMemory> for LexFault {
    ghost use Rattle.mesa_lexer.specs.declared.fault.LexFault.TheVariants.{Memory};

    ghost from_gives = { λ _ fault. fault ≡ Memory };

    fn from(_: OutOfMemory) -> LexFault {
        LexFault::Memory
    }
}

impl From<AllocError> for LexFault {
    ghost use Rattle.mesa_lexer.specs.declared.fault.LexFault.TheVariants.{Memory};

    ghost from_gives = { λ _ fault. fault ≡ Memory };

    fn from(_: AllocError) -> LexFault {
        LexFault::Memory
    }
}

impl<T: Drop> From<AllocFailed<T>> for LexFault {
    ghost use Rattle.mesa_lexer.specs.declared.fault.LexFault.TheVariants.{Memory};

    ghost from_gives = { λ _ fault. fault ≡ Memory };

    fn from(_: AllocFailed<T>) -> LexFault {
        LexFault::Memory
    }
}

impl SyntaxFault {
    /// The cause as a line that names it shows it.
    pub fn name(&self) -> &'static str
        ensures { result.now ≡ syntax_name self.now }
    {
        match self {
            SyntaxFault::Unexpected(_) => "Unexpected",
            SyntaxFault::TooDeep(_) => "TooDeep",
            SyntaxFault::Memory => "Memory",
        }
    }

    /// Where the fault stands; want of memory stands nowhere.
    pub fn place(&self) -> Option<Place>
        ensures { result ≡ syntax_place self.now }
    {
        match self {
            SyntaxFault::Unexpected(place) | SyntaxFault::TooDeep(place) => Some(*place),
            SyntaxFault::Memory => None,
        }
    }
}

impl From<OutOfMemory> for SyntaxFault {
    ghost use Rattle.mesa_lexer.specs.declared.fault.SyntaxFault.TheVariants.{Memory};

    ghost from_gives = { λ _ fault. fault ≡ Memory };

    fn from(_: OutOfMemory) -> SyntaxFault {
        SyntaxFault::Memory
    }
}

impl From<AllocError> for SyntaxFault {
    ghost use Rattle.mesa_lexer.specs.declared.fault.SyntaxFault.TheVariants.{Memory};

    ghost from_gives = { λ _ fault. fault ≡ Memory };

    fn from(_: AllocError) -> SyntaxFault {
        SyntaxFault::Memory
    }
}

impl<T: Drop> From<AllocFailed<T>> for SyntaxFault {
    ghost use Rattle.mesa_lexer.specs.declared.fault.SyntaxFault.TheVariants.{Memory};

    ghost from_gives = { λ _ fault. fault ≡ Memory };

    fn from(_: AllocFailed<T>) -> SyntaxFault {
        SyntaxFault::Memory
    }
}
