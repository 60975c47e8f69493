//! What operators and checks make of words: None where they raise something (Language Manual, chapter 2).

ghost use Rattle.std.specs.Prelude.{◌≡◌, ◌<◌};
ghost use Rattle.mesa_types.specs.Constants.{fine};
ghost use Rattle.mesa_types.specs.Operators as spec;

use mesa_types::mesa_base::Relation;
use mesa_types::{Base, Bases, Operator, Range};

/// A word as a plain number, plus 32,768.
#[inline(always)]
#[tactic(auto, unfolding(mesa_types::specs::Operators::shifted))]
fn shifted(base: Base, word: u16) -> u32
    ensures value { result ≡ spec.shifted base word }
    ensures small { result < 98304 }
{
    match base {
        Base::Signed => (u32::from(word) + 32768) % 65536,
        Base::Unsigned => u32::from(word) + 32768,
    }
}

/// The word of the number with the other sign.
#[inline(always)]
#[tactic(auto, unfolding(mesa_types::specs::Operators::opposite, mesa_types::specs::Operators::wrap))]
pub fn opposite(word: u16) -> u16
    ensures { result ≡ spec.opposite word }
{
    ((65536 - u32::from(word)) % 65536) as u16
}

#[inline(always)]
#[tactic(auto, unfolding(mesa_types::specs::Operators::is_negative))]
fn is_negative(word: u16) -> bool
    ensures { result ≡ spec.is_negative word }
{
    32768 <= word
}

#[inline(always)]
#[tactic(auto, unfolding(mesa_types::specs::Operators::magnitude, mesa_types::specs::Operators::magnitude_if, mesa_types::specs::Operators::is_negative))]
fn magnitude(word: u16) -> u16
    ensures value { result ≡ spec.magnitude word }
    ensures positive { 0 < word → 0 < result }
{
    if 32768 <= word {
        (65536 - u32::from(word)) as u16
    } else {
        word
    }
}

#[inline(always)]
#[tactic(auto, unfolding(mesa_types::specs::Operators::with_sign))]
fn with_sign(has_minus: bool, word: u16) -> u16
    ensures { result ≡ spec.with_sign has_minus word }
{
    if has_minus { opposite(word) } else { word }
}

#[inline(always)]
#[tactic(auto, unfolding(mesa_types::specs::Operators::differ))]
pub(crate) fn differ(left: bool, right: bool) -> bool
    ensures { result ≡ spec.differ left right }
{
    if left { !right } else { right }
}

/// The quotient of two words, cut towards zero.
#[inline(always)]
#[tactic(auto, unfolding(mesa_types::specs::Operators::quotient))]
pub fn quotient(base: Base, left: u16, right: u16) -> u16
    requires { 0 < right }
    ensures { result ≡ spec.quotient base left right }
{
    match base {
        Base::Unsigned => left / right,
        Base::Signed => {
            let has_minus = differ(is_negative(left), is_negative(right));
            with_sign(has_minus, magnitude(left) / magnitude(right))
        }
    }
}

/// The remainder of two words, with the sign of the left one.
#[inline(always)]
#[tactic(auto, unfolding(mesa_types::specs::Operators::remainder))]
pub fn remainder(base: Base, left: u16, right: u16) -> u16
    requires { 0 < right }
    ensures { result ≡ spec.remainder base left right }
{
    match base {
        Base::Unsigned => left % right,
        Base::Signed => with_sign(is_negative(left), magnitude(left) % magnitude(right)),
    }
}

/// A character, given as its code plus 32,768.
#[tactic(auto, unfolding(mesa_types::specs::Operators::character, mesa_types::specs::Operators::fine_if))]
fn character(code: u32) -> Option<u16>
    ensures { result ≡ fine (spec.character code) }
{
    if 32768 <= code && code < 33024 {
        Some((code - 32768) as u16)
    } else {
        None
    }
}

#[tactic(auto, unfolding(mesa_types::specs::Operators::tried, mesa_types::specs::Operators::wrap, mesa_types::specs::Operators::by_divisor))]
pub(crate) fn tried(operator: Operator, left: u16, right: u16) -> Option<u16>
    ensures { result ≡ fine (spec.tried operator left right) }
{
    match operator {
        Operator::Add => Some(left.wrapping_add(right)),
        Operator::Subtract => Some(left.wrapping_sub(right)),
        Operator::Multiply => Some(left.wrapping_mul(right)),
        Operator::Divide(_) | Operator::Modulo(_) if right == 0 => None,
        Operator::Divide(base) => Some(quotient(base, left, right)),
        Operator::Modulo(base) => Some(remainder(base, left, right)),
        Operator::AddToCharacter(base) => character(u32::from(left) + shifted(base, right)),
        Operator::SubtractFromCharacter(base) => {
            character((u32::from(left) + 65536).saturating_sub(shifted(base, right)))
        }
    }
}

/// Whether a word is in a range.
#[inline(always)]
#[tactic(auto, unfolding(mesa_types::specs::Operators::fits))]
pub fn fits(range: Range, word: u16) -> bool
    ensures { result ≡ spec.fits range word }
{
    match range {
        Range::Every => true,
        Range::From(base, first, last) => {
            shifted(base, first) <= shifted(base, word)
                && shifted(base, word) <= shifted(base, last)
        }
    }
}

#[tactic(auto, unfolding(mesa_types::specs::Operators::checked, mesa_types::specs::Operators::fine_if))]
pub(crate) fn checked(range: Range, word: u16) -> Option<u16>
    ensures { result ≡ fine (spec.checked range word) }
{
    if fits(range, word) { Some(word) } else { None }
}

/// Whether a relation holds of two words.
#[inline(always)]
#[tactic(auto, unfolding(mesa_types::specs::Operators::related))]
pub fn related(relation: Relation, base: Base, left: u16, right: u16) -> bool
    ensures { result ≡ spec.related relation base left right }
{
    match relation {
        Relation::Equal => left == right,
        Relation::NotEqual => left != right,
        Relation::Less => shifted(base, left) < shifted(base, right),
        Relation::AtMost => shifted(base, left) <= shifted(base, right),
        Relation::Greater => shifted(base, right) < shifted(base, left),
        Relation::AtLeast => shifted(base, right) <= shifted(base, left),
    }
}

/// The words of an interval's first and last bound, and whether each is left out.
#[derive(Clone, Copy)]
pub(crate) struct Bounds {
    pub first: u16,
    pub first_is_open: bool,
    pub last: u16,
    pub last_is_open: bool,
}

#[tactic(auto, unfolding(mesa_types::specs::Operators::lies_in, mesa_types::specs::Operators::first_of, mesa_types::specs::Operators::beyond, mesa_types::specs::Operators::past))]
pub(crate) fn lies_in(bases: Bases, word: u16, bounds: Bounds) -> bool
    ensures { result ≡ spec.lies_in bases word bounds.first_is_open bounds.first bounds.last_is_open bounds.last }
{
    let number = shifted(bases.number, word);
    let first = shifted(bases.first, bounds.first) + u32::from(bounds.first_is_open);
    let last = shifted(bases.last, bounds.last) + u32::from(!bounds.last_is_open);
    first <= number && number < last
}

/// The word of a truth.
#[inline(always)]
#[tactic(auto, unfolding(mesa_types::specs::Operators::truth))]
pub fn truth(holds: bool) -> u16
    ensures { result ≡ spec.truth holds }
{
    u16::from(holds)
}

#[tactic(auto, unfolding(mesa_types::specs::Operators::is_true))]
pub(crate) fn is_true(word: u16) -> bool
    ensures { result ≡ spec.is_true word }
{
    word != 0
}
