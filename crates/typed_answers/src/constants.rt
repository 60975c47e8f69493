//! The value of a constant expression.

ghost use Rattle.std.specs.Prelude.{◌≡◌, map};
ghost use Rattle.mesa_types.specs.mesa_base.specs.Chain.{chain};
ghost use Rattle.mesa_types.specs.Constants as spec;
ghost use Rattle.mesa_types.specs.Plain.{expr, exprs, operation};
ghost use Rattle.mesa_types.specs.Typed.{NoOperation};

use crate::long_operators as longs;
use crate::long_operators::LongBounds;
use crate::operators::{Bounds, checked, is_true, lies_in, opposite, related, tried, truth};
use mesa_types::{Conversion, Operation, TypedExpr};

/// A value that is one word.
fn as_word(number: u32) -> Option<u16>
    ensures { result ≡ spec.as_word number }
{
    if number < 65536 {
        Some(number as u16)
    } else {
        None
    }
}

#[tactic(auto, unfolding(mesa_types::specs::Longs::converted, mesa_types::specs::Longs::on_fine))]
fn converted(conversion: Conversion, number: u32) -> Option<u32>
    ensures { result ≡ spec.converted_constant conversion number }
{
    match conversion {
        Conversion::Kept => Some(number),
        Conversion::Widened(from, to) => longs::widened(from, to, as_word(number)?),
        Conversion::Narrowed(from, to, range) => {
            let word = longs::narrowed(from, to, number)?;
            Some(u32::from(checked(range, word)?))
        }
        Conversion::InCommon => longs::in_common(number),
    }
}

/// The value of a constant, a word or, of a LONG type, the number that its two words spell: None where the expression is no
/// literal and no operator over constants, where one of its operators or checks raises something, and for a string.
#[cycle(constants)]
#[tactic(auto, unfolding(mesa_types::specs::Constants::constant))]
pub fn constant(e: &TypedExpr) -> Option<u32>
    ensures { result ≡ spec.constant (expr e.now) }
{
    match e {
        TypedExpr::Number(word) => Some(u32::from(*word)),
        TypedExpr::LongNumber(number) => Some(*number),
        TypedExpr::Checked(range, of) => {
            let word = as_word(constant(of.get())?)?;
            Some(u32::from(checked(*range, word)?))
        }
        TypedExpr::Converted(conversion, of) => converted(*conversion, constant(of.get())?),
        TypedExpr::Operate(first, rest) => {
            let word = as_word(constant(first.get())?)?;
            Some(u32::from(constant_run(word, rest.as_slice())?))
        }
        TypedExpr::OperateLong(first, rest) => {
            constant_long_run(constant(first.get())?, rest.as_slice())
        }
        TypedExpr::Negate(of) => Some(u32::from(opposite(as_word(constant(of.get())?)?))),
        TypedExpr::NegateLong(of) => Some(longs::opposite(constant(of.get())?)),
        TypedExpr::Relate(base, relation, left, right) => {
            let left = as_word(constant(left.get())?)?;
            let right = as_word(constant(right.get())?)?;
            Some(u32::from(truth(related(*relation, *base, left, right))))
        }
        TypedExpr::RelateLong(base, relation, left, right) => {
            let left = constant(left.get())?;
            let right = constant(right.get())?;
            Some(u32::from(truth(longs::related(*relation, *base, left, right))))
        }
        TypedExpr::Within(bases, of, interval) => {
            let word = as_word(constant(of.get())?)?;
            let interval = interval.get();
            let bounds = Bounds {
                first: as_word(constant(&interval.first)?)?,
                first_is_open: interval.first_is_open,
                last: as_word(constant(&interval.last)?)?,
                last_is_open: interval.last_is_open,
            };
            Some(u32::from(truth(lies_in(*bases, word, bounds))))
        }
        TypedExpr::WithinLong(bases, of, interval) => {
            let number = constant(of.get())?;
            let interval = interval.get();
            let bounds = LongBounds {
                first: constant(&interval.first)?,
                first_is_open: interval.first_is_open,
                last: constant(&interval.last)?,
                last_is_open: interval.last_is_open,
            };
            Some(u32::from(truth(longs::lies_in(*bases, number, bounds))))
        }
        TypedExpr::Not(of) => Some(u32::from(truth(!is_true(as_word(constant(of.get())?)?)))),
        TypedExpr::AllOf(all) => Some(u32::from(truth(all_true(all.as_slice())?))),
        TypedExpr::SomeOf(all) => Some(u32::from(truth(some_true(all.as_slice())?))),
        _ => None,
    }
}

#[cycle(constants)]
fn constant_run(first: u16, rest: &[Operation]) -> Option<u16>
    ensures { result ≡ spec.constant_run (chain (map operation rest.now) NoOperation) first }
{
    let mut word = first;
    for step in rest {
        word = constant_step(word, step)?;
    }
    Some(word)
}

#[cycle(constants)]
#[tactic(auto, unfolding(mesa_types::specs::Constants::constant))]
fn constant_step(word: u16, step: &Operation) -> Option<u16>
    ensures { result ≡ spec.constant_run (operation step.now NoOperation) word }
{
    let left = checked(step.check, word)?;
    let right = as_word(constant(&step.right)?)?;
    Some(tried(step.operator, left, right)?)
}

#[cycle(constants)]
fn constant_long_run(first: u32, rest: &[Operation]) -> Option<u32>
    ensures { result ≡ spec.constant_long_run (chain (map operation rest.now) NoOperation) first }
{
    let mut number = first;
    for step in rest {
        number = constant_long_step(number, step)?;
    }
    Some(number)
}

#[cycle(constants)]
#[tactic(auto, unfolding(mesa_types::specs::Constants::constant))]
fn constant_long_step(number: u32, step: &Operation) -> Option<u32>
    ensures { result ≡ spec.constant_long_run (operation step.now NoOperation) number }
{
    let right = constant(&step.right)?;
    Some(longs::tried(step.operator, number, right)?)
}

#[cycle(constants)]
fn all_true(all: &[TypedExpr]) -> Option<bool>
    ensures { result ≡ spec.all_true (exprs (map expr all.now)) }
{
    let mut are_true = true;
    for e in all {
        are_true = and_true(are_true, e)?;
    }
    Some(are_true)
}

#[cycle(constants)]
fn and_true(are_true: bool, e: &TypedExpr) -> Option<bool>
    ensures { result ≡ spec.and_true are_true (expr e.now) }
{
    let word = as_word(constant(e)?)?;
    Some(are_true && is_true(word))
}

#[cycle(constants)]
fn some_true(all: &[TypedExpr]) -> Option<bool>
    ensures { result ≡ spec.some_true (exprs (map expr all.now)) }
{
    let mut is_one_true = false;
    for e in all {
        is_one_true = or_true(is_one_true, e)?;
    }
    Some(is_one_true)
}

#[cycle(constants)]
fn or_true(is_one_true: bool, e: &TypedExpr) -> Option<bool>
    ensures { result ≡ spec.or_true is_one_true (expr e.now) }
{
    let word = as_word(constant(e)?)?;
    Some(is_one_true || is_true(word))
}
