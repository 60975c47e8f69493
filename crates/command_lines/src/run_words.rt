//! The words of a run: `run`, 1 to 16 bases of files, and the turns (rule of this project).

ghost use Rattle.std.specs.Prelude.{◌≡◌, ◌≢◌, ◌^◌, ◌<◌, ◌∷◌, ℕ, IfSome, IfNone, IsTrue, ◌↔◌, Some, codes, decimal, slice_get};
ghost use Rattle.command_passes.specs.command_rules.specs.Forms.{HasForm, HasNoForm};
ghost use Rattle.command_lines.specs.Words.{IsBaseAt, behind_first, form_in};

use crate::form::Form;
use command_passes::checked_texts::is_file_base;
use mesa_base::{Words, decimal_value};

/// At most so many words: the verb, the bases of the images that may be loaded as one, and the turns.
const MOST_WORDS: usize = 18;

/// Whether the word at this place is a base of a file.
fn is_base_at(words: &Words, at: usize) -> bool
    ensures { IsTrue result ↔ IsBaseAt words.now at }
{
    match words.get(at) {
        Some(base) => is_file_base(base.as_slice()),
        None => false,
    }
}

/// The number that the word at this place writes.
fn number_at(words: &Words, at: usize) -> Option<u64>
    ensures some { IfSome result (λ n. slice_get words.now at ≡ Some (decimal n)) }
    ensures none { IfNone result ((n : ℕ) → n < 2 ^ 64 → slice_get words.now at ≢ Some (decimal n)) }
{
    match words.get(at) {
        Some(word) => decimal_value(word.as_slice()),
        None => None,
    }
}

/// The form of these words, of which the first is `run`.
pub(crate) fn run_of(words: &Words) -> Option<Form<'_>>
    requires { words.now ≡ codes "run" ∷ behind_first words.now }
    ensures form { IfSome result (λ f. HasForm words.now (form_in f)) }
    ensures formless { IfNone result (HasNoForm words.now) }
{
    let count = words.len();
    if count < 3 || MOST_WORDS < count {
        return None;
    }
    for at in 1..count - 1 {
        if !is_base_at(words, at) {
            return None;
        }
    }
    let turns = number_at(words, count - 1)?;
    Some(Form::Run { words, turns })
}
