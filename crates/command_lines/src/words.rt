//! Words of a command line: two or three, or the first of them.

ghost use Rattle.std.specs.Prelude.{◌≡◌, ◌≢◌, ◌∷◌, [], MatchOption, length, IsTrue, ◌↔◌};
ghost use Rattle.command_lines.specs.Words.{behind_first};

use mesa_base::Words;

#[derive(Clone, Copy)]
pub(crate) struct Two<'a> {
    pub(crate) first: &'a [u8],
    pub(crate) second: &'a [u8],
}

pub(crate) fn two_words(words: &Words) -> Option<Two<'_>>
    ensures { MatchOption result (length words.now ≢ 2) (λ two. words.now ≡ two.first.now ∷ two.second.now ∷ []) }
{
    if words.len() != 2 {
        return None;
    }
    let first = words.get(0)?.as_slice();
    let second = words.get(1)?.as_slice();
    Some(Two { first, second })
}

#[derive(Clone, Copy)]
pub(crate) struct Three<'a> {
    pub(crate) first: &'a [u8],
    pub(crate) second: &'a [u8],
    pub(crate) third: &'a [u8],
}

pub(crate) fn three_words(words: &Words) -> Option<Three<'_>>
    ensures { MatchOption result (length words.now ≢ 3) (λ three. words.now ≡ three.first.now ∷ three.second.now ∷ three.third.now ∷ []) }
{
    if words.len() != 3 {
        return None;
    }
    let first = words.get(0)?.as_slice();
    let second = words.get(1)?.as_slice();
    let third = words.get(2)?.as_slice();
    Some(Three {
        first,
        second,
        third,
    })
}

/// Whether the first word is this one.
pub(crate) fn begins(words: &Words, verb: &str) -> bool
    ensures { IsTrue result ↔ (words.now ≡ verb.now ∷ behind_first words.now) }
{
    match words.get(0) {
        Some(word) => is_word(word.as_slice(), verb),
        None => false,
    }
}

pub(crate) fn is_word(word: &[u8], text: &str) -> bool
    ensures { IsTrue result ↔ (word.now ≡ text.now) }
{
    word == text.as_bytes()
}
