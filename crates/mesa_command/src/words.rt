//! The words of a command line that are bases of files, one behind the other.

ghost use Rattle.std.specs.Prelude.{◌≡◌, ◌<◌, length, IfOk, Some, slice_get};
ghost use Rattle.command_lines.specs.Words.{behind_first, between};

use mesa_base::{Bytes, List, OutOfMemory, Texts, Words};
use std::alloc::Global;

/// A copy of the word at this place.
fn word_at(alloc: Global, words: &Words, at: usize) -> Result<Bytes, OutOfMemory>
    requires { at < length words.now }
    ensures { IfOk result (λ word. slice_get words.now at ≡ Some word) }
{
    match words.get(at) {
        Some(word) => List::from_slice(alloc, word.as_slice()),
        None => Ok(List::new(alloc)),
    }
}

/// The words behind the first.
pub(crate) fn words_behind(alloc: Global, words: &Words) -> Result<Texts, OutOfMemory>
    ensures { IfOk result (λ bases. bases ≡ behind_first words.now) }
{
    let mut bases = List::new(alloc);
    for at in 1..words.len() {
        bases.push(word_at(alloc, words, at)?)?;
    }
    Ok(bases)
}

/// The words between the first and the last.
pub(crate) fn words_between(alloc: Global, words: &Words) -> Result<Texts, OutOfMemory>
    ensures { IfOk result (λ bases. bases ≡ between words.now) }
{
    let mut bases = List::new(alloc);
    for next in 2..words.len() {
        bases.push(word_at(alloc, words, next - 1)?)?;
    }
    Ok(bases)
}
