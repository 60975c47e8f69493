//! The check or conversion of a value that is given to a target.
ghost use Rattle.std.specs.Prelude.{◌≡◌, option_map, IfOk};
ghost use Rattle.std.specs.Option.{option_copied};
ghost use Rattle.check_rules.specs.mesa_types.specs.Plain.{expr};
ghost use Rattle.check_rules.specs.interface_records.specs.PlainTypes.{plain};
ghost use Rattle.check_rules.specs.Ranges as spec;
ghost use Rattle.check_state.specs.Gives.{GivesOnly};
ghost use Rattle.check_state.specs.Views as view;

use crate::conversions::{conversion_for, made_by};
use crate::operators::in_common;
use check_rules::held_trees::{LetGo, both, boxed};
use check_rules::mesa_base::{OutOfMemory, Place};
use check_rules::mesa_types::{Base, Conversion, Range, TypeTree, TypedExpr};
use check_rules::{Cause, CheckFault};
use check_state::{
    Aim, Typed, base_of, bounds, conforms, is_cardinal, is_integer, of_kind, sign_of,
};
use std::alloc::Global;

/// The value with its check, if there is one.
pub fn checked(alloc: Global, range: Range, value: TypedExpr) -> Result<TypedExpr, OutOfMemory>
    ensures { IfOk result (λ made. expr made ≡ spec.checked range (expr value)) }
{
    match range {
        Range::Every => Ok(value),
        Range::From(_, _, _) => Ok(TypedExpr::Checked(range, boxed(alloc, value)?)),
    }
}

/// The words of one base from one bound to another of the other base, clipped where it cannot hold a bound.
pub fn range_between(from: Base, to: Base, first: u16, last: u16) -> Range
    ensures { result ≡ spec.range_between from to first last }
{
    match (from, to) {
        (Base::Signed, Base::Signed) => Range::From(Base::Signed, first, last),
        (Base::Unsigned, Base::Unsigned) => Range::From(Base::Unsigned, first, last),
        (Base::Unsigned, Base::Signed) => {
            if 32768 <= last {
                Range::From(Base::Unsigned, 1, 0)
            } else {
                Range::From(Base::Unsigned, if 32768 <= first { 0 } else { first }, last)
            }
        }
        (Base::Signed, Base::Unsigned) => {
            if 32768 <= first {
                Range::From(Base::Signed, 1, 0)
            } else {
                Range::From(Base::Signed, first, last.min(32767))
            }
        }
    }
}

fn is_number_base(base: Option<&TypeTree>) -> bool
    ensures { result ≡ spec.is_number_base (option_map plain (option_copied base.entry)) }
{
    match base {
        Some(base) => is_integer(base) || is_cardinal(base),
        None => false,
    }
}

fn range_by(bounds: Option<(u16, u16)>, from: Base, to: Base, is_number: bool) -> Range
    ensures { result ≡ spec.range_by bounds from to is_number }
{
    match (bounds, from, to) {
        (Some((first, last)), from, to) => range_between(from, to, first, last),
        (None, Base::Signed, Base::Unsigned) if is_number => in_common(Base::Signed),
        (None, Base::Unsigned, Base::Signed) if is_number => in_common(Base::Unsigned),
        _ => Range::Every,
    }
}

/// The check of a value of a type that goes to a target.
#[tactic(auto, unfolding(check_rules::specs::Ranges::range_for))]
pub fn range_for(from: &TypeTree, to: &TypeTree) -> Range
    ensures { result ≡ spec.range_for (plain from.now) (plain to.now) }
{
    range_by(
        bounds(to),
        sign_of(from),
        sign_of(to),
        is_number_base(base_of(to)),
    )
}

/// The value with its conversion, or with its check where it is not converted.
fn converted(
    alloc: Global,
    conversion: Conversion,
    range: Range,
    value: TypedExpr,
) -> Result<TypedExpr, OutOfMemory>
    ensures { IfOk result (λ made. expr made ≡ spec.converted conversion range (expr value)) }
{
    match conversion {
        Conversion::Kept => checked(alloc, range, value),
        Conversion::Widened(_, _) | Conversion::Narrowed(_, _, _) | Conversion::InCommon => {
            made_by(alloc, conversion, value)
        }
    }
}

#[tactic(auto, unfolding(check_rules::specs::Ranges::given_as))]
fn fitted(alloc: Global, target: &TypeTree, r: Typed) -> Result<Typed, OutOfMemory>
    ensures { IfOk result (λ made. view.typed made ≡ spec.typed (plain target.now) (spec.given_as (plain r.kind) (plain target.now) (expr r.value))) }
{
    let conversion = conversion_for(&r.kind, target);
    let range = range_for(&r.kind, target);
    let value = converted(alloc, conversion, range, r.into_value())?;
    let (value, kind) = both(value, target.copy(alloc))?;
    Ok(of_kind(kind, value))
}

/// A value that must conform to its target, with its check or conversion.
#[tactic(auto, unfolding(check_rules::specs::Ranges::finish))]
pub fn finish(alloc: Global, aim: Aim<'_>, r: Typed) -> Result<Typed, CheckFault>
    ensures { GivesOnly view.typed (spec.finish (view.aim aim.entry) (view.typed r)) result }
{
    match aim {
        Aim::Free(_) | Aim::Several(_) => Ok(r),
        Aim::Into(target, place) => {
            if !conforms(&r.kind, target) {
                r.let_go();
                return Err(CheckFault::At(Cause::TypeMismatch, place));
            }
            Ok(fitted(alloc, target, r)?)
        }
    }
}
