//! The words of a plan: `plan` and 1 to 64 bases of files, no two of which are the same (rule of this project).

ghost use Rattle.std.specs.Prelude.{◌≡◌, ◌≢◌, ◌≤◌, ◌<◌, ◌∷◌, ℕ, IfSome, IfNone, IsTrue, ◌↔◌, Some, codes, slice_get};
ghost use Rattle.command_passes.specs.command_rules.specs.Forms.{HasForm, HasNoForm};
ghost use Rattle.command_lines.specs.Words.{IsFit, behind_first, form_in};

use crate::form::Form;
use command_passes::checked_texts::is_file_base;
use mesa_base::Words;

/// At most so many words: the verb, and the bases of the texts that may be planned at once.
const MOST_WORDS: usize = 65;

/// Whether the word at this place is this base.
fn stands_at(words: &Words, at: usize, base: &[u8]) -> bool
    ensures { IsTrue result ↔ (slice_get words.now at ≡ Some base.now) }
{
    match words.get(at) {
        Some(word) => word.as_slice() == base,
        None => false,
    }
}

/// Whether no word behind the first and before this place is this base.
fn is_new(words: &Words, at: usize, base: &[u8]) -> bool
    ensures { IsTrue result ↔ ((k : ℕ) → 1 ≤ k → k < at → slice_get words.now k ≢ Some base.now) }
{
    for before in 1..at {
        if stands_at(words, before, base) {
            return false;
        }
    }
    true
}

/// Whether the word at this place is a base of a file, and none before it is the same.
fn is_fit(words: &Words, at: usize) -> bool
    ensures { IsTrue result ↔ IsFit words.now at }
{
    match words.get(at) {
        Some(base) => is_file_base(base.as_slice()) && is_new(words, at, base.as_slice()),
        None => false,
    }
}

/// The form of these words, of which the first is `plan`.
pub(crate) fn plan_of(words: &Words) -> Option<Form<'_>>
    requires { words.now ≡ codes "plan" ∷ behind_first words.now }
    ensures form { IfSome result (λ f. HasForm words.now (form_in f)) }
    ensures formless { IfNone result (HasNoForm words.now) }
{
    let count = words.len();
    if count < 2 || MOST_WORDS < count {
        return None;
    }
    for at in 1..count {
        if !is_fit(words, at) {
            return None;
        }
    }
    Some(Form::Plan { words })
}
