//! Arms by their numbers.

ghost use Rattle.std.specs.Prelude.{◌≡◌, slice_get};
ghost use Rattle.machine_ready.specs.Openings.{arms_in};
ghost use Rattle.machine_signals.specs.Arms.{span_in, span_of, taken};

use code_forms::{Arm, Phrase};

/// Where the region of an arm lies.
#[derive(Clone, Copy)]
pub struct Span {
    pub start: u32,
    pub end: u32,
}

const NONE: Span = Span { start: 0, end: 0 };

#[inline(always)]
fn of_arm(arm: &Arm) -> Span
    ensures { result ≡ span_of arm.now }
{
    Span {
        start: arm.start,
        end: arm.end,
    }
}

/// That of the arm of a number, as arms are numbered over the phrases; of none it is empty.
#[inline(always)]
pub(crate) fn span_at(phrases: &[Phrase], number: u32) -> Span
    ensures { result ≡ span_in (slice_get (arms_in phrases.now) number) }
{
    let mut left = number as usize;
    for phrase in phrases {
        let arms = phrase.arms.as_slice();
        if left < arms.len() {
            return of_arm(&arms[left]);
        }
        left -= arms.len();
    }
    NONE
}

/// How many of the words given an arm takes as its parameters.
#[inline(always)]
pub(crate) fn taken(given: usize, words: usize) -> usize
    ensures { result ≡ taken given words }
{
    if words < given {
        return words;
    }
    given
}
