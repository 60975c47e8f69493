//! What operators, relations and conversions make of LONG numbers: None where they raise something (rule of this project).

ghost use Rattle.std.specs.Prelude.{◌≡◌, ◌<◌};
ghost use Rattle.mesa_types.specs.Constants.{fine};
ghost use Rattle.mesa_types.specs.Longs as spec;
ghost use Rattle.mesa_types.specs.Operators.{fine_if};
ghost use Rattle.mesa_types.specs.mesa_base.specs.declared.relation.Relation.TheVariants.{Less};
ghost use Rattle.mesa_types.specs.declared.typed_parts.Base.TheVariants.{Signed};

use crate::operators::differ;
use mesa_types::mesa_base::Relation;
use mesa_types::{Base, Bases, Operator};

/// The number that two words spell.
#[inline(always)]
#[tactic(auto, unfolding(mesa_types::specs::Longs::long_of))]
pub fn joined(more: u16, less: u16) -> u32
    ensures { result ≡ spec.long_of more less }
{
    u32::from(more) * 65536 + u32::from(less)
}

/// The more significant word of a number.
#[inline(always)]
#[tactic(auto, unfolding(mesa_types::specs::Longs::more_of))]
pub fn more_of(number: u32) -> u16
    ensures { result ≡ spec.more_of number }
{
    (number / 65536) as u16
}

/// The less significant word of a number.
#[inline(always)]
#[tactic(auto, unfolding(mesa_types::specs::Longs::less_of))]
pub fn less_of(number: u32) -> u16
    ensures { result ≡ spec.less_of number }
{
    (number % 65536) as u16
}

/// A number as a plain number, plus 2,147,483,648.
#[inline(always)]
#[tactic(auto, unfolding(mesa_types::specs::Longs::shifted_long))]
fn shifted(base: Base, number: u32) -> u64
    ensures value { result ≡ spec.shifted_long base number }
    ensures small { result < 6442450944 }
{
    match base {
        Base::Signed => (u64::from(number) + 2147483648) % 4294967296,
        Base::Unsigned => u64::from(number) + 2147483648,
    }
}

/// The number with the other sign.
#[inline(always)]
#[tactic(auto, unfolding(mesa_types::specs::Longs::opposite_long, mesa_types::specs::Longs::wrap_long))]
pub fn opposite(number: u32) -> u32
    ensures { result ≡ spec.opposite_long number }
{
    ((4294967296 - u64::from(number)) % 4294967296) as u32
}

#[inline(always)]
#[tactic(auto, unfolding(mesa_types::specs::Longs::is_negative_long))]
fn is_negative(number: u32) -> bool
    ensures { result ≡ spec.is_negative_long number }
{
    2147483648 <= number
}

#[inline(always)]
#[tactic(auto, unfolding(mesa_types::specs::Longs::long_magnitude, mesa_types::specs::Longs::long_magnitude_if, mesa_types::specs::Longs::is_negative_long))]
fn magnitude(number: u32) -> u32
    ensures value { result ≡ spec.long_magnitude number }
    ensures positive { 0 < number → 0 < result }
{
    if 2147483648 <= number {
        (4294967296 - u64::from(number)) as u32
    } else {
        number
    }
}

#[inline(always)]
#[tactic(auto, unfolding(mesa_types::specs::Longs::with_sign_long))]
fn with_sign(has_minus: bool, number: u32) -> u32
    ensures { result ≡ spec.with_sign_long has_minus number }
{
    if has_minus { opposite(number) } else { number }
}

/// The quotient of two numbers, cut towards zero.
#[inline(always)]
#[tactic(auto, unfolding(mesa_types::specs::Longs::quotient_long))]
pub fn quotient(base: Base, left: u32, right: u32) -> u32
    requires { 0 < right }
    ensures { result ≡ spec.quotient_long base left right }
{
    match base {
        Base::Unsigned => left / right,
        Base::Signed => {
            let has_minus = differ(is_negative(left), is_negative(right));
            with_sign(has_minus, magnitude(left) / magnitude(right))
        }
    }
}

/// The remainder of two numbers, with the sign of the left one.
#[inline(always)]
#[tactic(auto, unfolding(mesa_types::specs::Longs::remainder_long))]
pub fn remainder(base: Base, left: u32, right: u32) -> u32
    requires { 0 < right }
    ensures { result ≡ spec.remainder_long base left right }
{
    match base {
        Base::Unsigned => left % right,
        Base::Signed => with_sign(is_negative(left), magnitude(left) % magnitude(right)),
    }
}

#[tactic(auto, unfolding(mesa_types::specs::Longs::tried_long, mesa_types::specs::Longs::wrap_long, mesa_types::specs::Operators::by_divisor))]
pub(crate) fn tried(operator: Operator, left: u32, right: u32) -> Option<u32>
    ensures { result ≡ fine (spec.tried_long operator left right) }
{
    match operator {
        Operator::Add | Operator::AddToCharacter(_) => Some(left.wrapping_add(right)),
        Operator::Subtract | Operator::SubtractFromCharacter(_) => Some(left.wrapping_sub(right)),
        Operator::Multiply => Some(left.wrapping_mul(right)),
        Operator::Divide(_) | Operator::Modulo(_) if right == 0 => None,
        Operator::Divide(base) => Some(quotient(base, left, right)),
        Operator::Modulo(base) => Some(remainder(base, left, right)),
    }
}

/// Whether the left number is less.
#[inline(always)]
#[tactic(auto, unfolding(mesa_types::specs::Longs::related_long))]
pub fn is_less(base: Base, left: u32, right: u32) -> bool
    ensures { result ≡ spec.related_long Less base left right }
{
    shifted(base, left) < shifted(base, right)
}

#[tactic(auto, unfolding(mesa_types::specs::Longs::related_long))]
pub(crate) fn related(relation: Relation, base: Base, left: u32, right: u32) -> bool
    ensures { result ≡ spec.related_long relation base left right }
{
    match relation {
        Relation::Equal => left == right,
        Relation::NotEqual => left != right,
        Relation::Less => shifted(base, left) < shifted(base, right),
        Relation::AtMost => shifted(base, left) <= shifted(base, right),
        Relation::Greater => shifted(base, right) < shifted(base, left),
        Relation::AtLeast => shifted(base, right) <= shifted(base, left),
    }
}

/// The first and the last bound of an interval, and whether each is left out.
#[derive(Clone, Copy)]
pub(crate) struct LongBounds {
    pub first: u32,
    pub first_is_open: bool,
    pub last: u32,
    pub last_is_open: bool,
}

#[tactic(auto, unfolding(mesa_types::specs::Longs::lies_in_long, mesa_types::specs::Operators::past))]
pub(crate) fn lies_in(bases: Bases, number: u32, bounds: LongBounds) -> bool
    ensures { result ≡ spec.lies_in_long bases number bounds.first_is_open bounds.first bounds.last_is_open bounds.last }
{
    let plain = shifted(bases.number, number);
    let first = shifted(bases.first, bounds.first) + u64::from(bounds.first_is_open);
    let last = shifted(bases.last, bounds.last) + u64::from(!bounds.last_is_open);
    first <= plain && plain < last
}

/// A word as a number: with a sign, a negative one has ones in its more significant word.
#[inline(always)]
#[tactic(auto, unfolding(mesa_types::specs::Longs::extended, mesa_types::specs::Longs::extended_if, mesa_types::specs::Operators::is_negative))]
pub fn extended(base: Base, word: u16) -> u32
    ensures { result ≡ spec.extended base word }
{
    match base {
        Base::Signed if 32768 <= word => u32::from(word) + 4294901760,
        _ => u32::from(word),
    }
}

/// Whether a number is one of both LONG types.
#[inline(always)]
#[tactic(auto, unfolding(mesa_types::specs::Longs::is_in_common))]
pub fn is_in_common(number: u32) -> bool
    ensures { result ≡ spec.is_in_common number }
{
    number < 2147483648
}

/// The number, where it is one of both LONG types.
#[tactic(auto, unfolding(mesa_types::specs::Operators::fine_if))]
pub(crate) fn in_common(number: u32) -> Option<u32>
    ensures { result ≡ fine (fine_if (spec.is_in_common number) number) }
{
    if is_in_common(number) {
        Some(number)
    } else {
        None
    }
}

#[tactic(auto, unfolding(mesa_types::specs::Longs::widened))]
pub(crate) fn widened(from: Base, to: Base, word: u16) -> Option<u32>
    ensures { result ≡ fine (spec.widened from to word) }
{
    let number = extended(from, word);
    match (from, to) {
        (Base::Signed, Base::Unsigned) => in_common(number),
        _ => Some(number),
    }
}

/// Whether a plain number, plus 2,147,483,648, is one of INTEGER, or of CARDINAL.
#[inline(always)]
#[tactic(auto, unfolding(mesa_types::specs::Longs::is_word_of))]
fn is_plain_word(base: Base, plain: u64) -> bool
    ensures { result ≡ spec.is_word_of base plain }
{
    match base {
        Base::Signed => 2147450880 <= plain && plain < 2147516416,
        Base::Unsigned => 2147483648 <= plain && plain < 2147549184,
    }
}

/// Whether a number, read with a sign, is one of INTEGER, or of CARDINAL.
#[inline(always)]
pub fn is_word_of(base: Base, number: u32) -> bool
    ensures { result ≡ spec.is_word_of base (spec.shifted_long Signed number) }
{
    is_plain_word(base, shifted(Base::Signed, number))
}

#[tactic(auto, unfolding(mesa_types::specs::Longs::narrowed, mesa_types::specs::Operators::fine_if))]
pub(crate) fn narrowed(from: Base, to: Base, number: u32) -> Option<u16>
    ensures { result ≡ fine (spec.narrowed from to number) }
{
    if is_plain_word(to, shifted(from, number)) {
        Some(less_of(number))
    } else {
        None
    }
}
