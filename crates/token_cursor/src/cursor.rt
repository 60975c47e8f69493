//! A place in a list of tokens.
ghost use Rattle.std.specs.Prelude.{◌≡◌, IfOk};
ghost use Rattle.std.specs.Option.{option_copied};
ghost use Rattle.mesa_lexer.specs.declared.token.Kind.TheVariants as k;
ghost use Rattle.token_cursor.specs.Parsing.{a_char, a_name, a_number, a_text, exactly, finds, need, only};
ghost use Rattle.token_cursor.specs.Running.{Reads, alone, as_parts, behind, next, next_is, skip, taken, text_parts};

use crate::fault::Stopped;
use mesa_base::{Bytes, Identifier, List, OutOfMemory, Place, Placed};
use mesa_lexer::{Kind, Mark, Token, Word};
use std::alloc::Global;

/// Whether a token of this kind is the word.
pub fn is_word(kind: &Kind, word: Word) -> bool
    ensures { result ≡ only (k.Word word) kind.now }
{
    match kind {
        Kind::Word(other) => *other == word,
        _ => false,
    }
}

/// Whether a token of this kind is the mark.
pub fn is_mark(kind: &Kind, mark: Mark) -> bool
    ensures { result ≡ only (k.Mark mark) kind.now }
{
    match kind {
        Kind::Mark(other) => *other == mark,
        _ => false,
    }
}

/// The tokens that are still to be read.
#[derive(Drop)]
pub struct Cursor<'a> {
    pub rest: &'a [Token],
}

impl<'a> Cursor<'a> {
    /// The next token; None at the end.
    #[tactic(auto, using(crate::proofs::Taking::get_next))]
    pub fn peek(&self) -> Option<&'a Token>
        ensures { option_copied result ≡ next self.now.rest.now }
    {
        self.rest.first()
    }

    /// Goes to the token behind the next; at the end it stays.
    #[tactic(auto, using(crate::proofs::Taking::skip_none, crate::proofs::Taking::skip_some))]
    pub fn skip(&mut self)
        ensures { self.new.rest.now ≡ skip self.old.rest.now }
    {
        if let [_, rest @ ..] = self.rest {
            self.rest = rest;
        }
    }

    /// Takes the word where it comes next, and tells its place.
    #[tactic(auto, unfolding(crate::specs::Running::taken, crate::specs::Running::behind))]
    pub fn takes_word(&mut self, word: Word) -> Option<Place>
        ensures found { taken (exactly (k.Word word)) self.old.rest.now ≡ alone result }
        ensures rest { self.new.rest.now ≡ behind (exactly (k.Word word)) self.old.rest.now }
    {
        let token = self.peek()?;
        if !is_word(&token.kind, word) {
            return None;
        }
        self.skip();
        Some(token.place)
    }

    /// Takes the mark where it comes next, and tells its place.
    #[tactic(auto, unfolding(crate::specs::Running::taken, crate::specs::Running::behind))]
    pub fn takes_mark(&mut self, mark: Mark) -> Option<Place>
        ensures found { taken (exactly (k.Mark mark)) self.old.rest.now ≡ alone result }
        ensures rest { self.new.rest.now ≡ behind (exactly (k.Mark mark)) self.old.rest.now }
    {
        let token = self.peek()?;
        if !is_mark(&token.kind, mark) {
            return None;
        }
        self.skip();
        Some(token.place)
    }

    /// Whether a name comes next.
    #[tactic(auto, unfolding(crate::specs::Running::next_is))]
    pub fn begins_name(&self) -> bool
        ensures { result ≡ next_is (finds a_name) self.now.rest.now }
    {
        match self.peek() {
            Some(token) => matches!(token.kind, Kind::Name(_)),
            None => false,
        }
    }

    /// Takes a name where one comes next.
    #[tactic(auto, unfolding(crate::specs::Running::taken, crate::specs::Running::behind))]
    pub fn takes_name(&mut self, alloc: Global) -> Result<Option<Identifier>, OutOfMemory>
        ensures found { IfOk result (λ found. taken a_name self.old.rest.now ≡ as_parts found) }
        ensures rest { IfOk result (λ found. self.new.rest.now ≡ behind a_name self.old.rest.now) }
    {
        match self.peek() {
            Some(
                Token {
                    kind: Kind::Name(name),
                    place,
                },
            ) => {
                let name = name.copy(alloc)?;
                self.skip();
                Ok(Some(Identifier {
                    name,
                    place: *place,
                }))
            }
            _ => Ok(None),
        }
    }

    /// Takes a number where one comes next.
    #[tactic(auto, unfolding(crate::specs::Running::taken, crate::specs::Running::behind))]
    pub fn takes_number(&mut self) -> Option<(u32, Place)>
        ensures found { taken a_number self.old.rest.now ≡ result }
        ensures rest { self.new.rest.now ≡ behind a_number self.old.rest.now }
    {
        let token = self.peek()?;
        let Kind::Number(number) = token.kind else {
            return None;
        };
        self.skip();
        Some((number, token.place))
    }

    /// Takes a character where one comes next, and tells its code.
    #[tactic(auto, unfolding(crate::specs::Running::taken, crate::specs::Running::behind))]
    pub fn takes_char(&mut self) -> Option<(u8, Place)>
        ensures found { taken a_char self.old.rest.now ≡ result }
        ensures rest { self.new.rest.now ≡ behind a_char self.old.rest.now }
    {
        let token = self.peek()?;
        let Kind::Char(code) = token.kind else {
            return None;
        };
        self.skip();
        Some((code, token.place))
    }

    /// Takes a text, as a list of its bytes.
    #[tactic(auto, unfolding(crate::specs::Running::taken, crate::specs::Running::behind))]
    pub fn takes_text(&mut self, alloc: Global) -> Result<Option<Placed<Bytes>>, OutOfMemory>
        ensures found { IfOk result (λ found. taken a_text self.old.rest.now ≡ text_parts found) }
        ensures rest { IfOk result (λ found. self.new.rest.now ≡ behind a_text self.old.rest.now) }
    {
        match self.peek() {
            Some(
                Token {
                    kind: Kind::Text(bytes),
                    place,
                },
            ) => {
                let item = List::from_slice(alloc, bytes.as_slice())?;
                self.skip();
                Ok(Some(Placed {
                    place: *place,
                    item,
                }))
            }
            _ => Ok(None),
        }
    }

    /// Takes the word, which must come, and tells its place. Unexpected: another token comes, or none.
    #[tactic(auto, using(crate::proofs::Taking::choose_by), unfolding(crate::specs::Parsing::need))]
    pub fn need_word(&mut self, word: Word) -> Result<Place, Stopped>
        ensures { Reads (need (k.Word word) self.old.rest.now) result self.new.rest.now }
    {
        match self.takes_word(word) {
            Some(place) => Ok(place),
            None => Err(Stopped::Unexpected),
        }
    }

    /// Takes the mark, which must come, and tells its place. Unexpected: another token comes, or none.
    #[tactic(auto, using(crate::proofs::Taking::choose_by), unfolding(crate::specs::Parsing::need))]
    pub fn need_mark(&mut self, mark: Mark) -> Result<Place, Stopped>
        ensures { Reads (need (k.Mark mark) self.old.rest.now) result self.new.rest.now }
    {
        match self.takes_mark(mark) {
            Some(place) => Ok(place),
            None => Err(Stopped::Unexpected),
        }
    }
}
