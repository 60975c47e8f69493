//! Intervals, as the operands of one operation or of IN.
ghost use Rattle.std.specs.Prelude.{◌≡◌, ◌≤◌, IfOk};
ghost use Rattle.check_rules.specs.mesa_types.specs.Plain.{expr, interval};
ghost use Rattle.check_rules.specs.mesa_types.specs.Typed as t;
ghost use Rattle.check_rules.specs.interface_records.specs.PlainTypes.{plain};
ghost use Rattle.check_rules.specs.Statements as rule;
ghost use Rattle.check_rules.specs.Values as spec;
ghost use Rattle.check_state.specs.Gives.{GivesOnly};
ghost use Rattle.check_state.specs.Views.{typed};
ghost use Rattle.check_values.specs.Views as view;

use crate::long_operators::{beside, by_itself, fitted};
use crate::operations::relates;
use crate::operators::sort_of;
use crate::values::truth;
use check_rules::held_trees::{LetGo, both, boxed};
use check_rules::mesa_base::{Boxed, OutOfMemory, Place};
use check_rules::mesa_types::{Bases, Interval, TypeTree, TypedExpr};
use check_rules::{Cause, CheckFault};
use check_state::{Typed, is_long, sign_of};
use std::alloc::Global;

/// The ends of an interval, as the operands of one operation or of IN, and where they begin.
pub struct Ends {
    pub open_low: bool,
    pub low_place: Place,
    pub low: Typed,
    pub high_place: Place,
    pub high: Typed,
    pub open_high: bool,
}

impl LetGo for Ends {
    fn let_go(self) {
        let Ends {
            open_low: _,
            low_place: _,
            low,
            high_place: _,
            high,
            open_high: _,
        } = self;
        low.let_go();
        high.let_go();
    }
}

impl Ends {
    /// The interval between them.
    pub fn into_interval(self) -> Interval
        ensures { interval result ≡ rule.between (view.ends self) }
    {
        let Ends {
            open_low,
            low_place: _,
            low,
            high_place: _,
            high,
            open_high,
        } = self;
        Interval {
            first: low.into_value(),
            first_is_open: open_low,
            last: high.into_value(),
            last_is_open: open_high,
        }
    }

    /// The interval between them as LONG numbers.
    pub fn into_long_interval(self, alloc: Global) -> Result<Interval, OutOfMemory>
        ensures { IfOk result (λ made. interval made ≡ rule.long_between (view.ends self)) }
    {
        let Ends {
            open_low,
            low_place: _,
            low,
            high_place: _,
            high,
            open_high,
        } = self;
        let (high, first) = both(high, made_long(alloc, low))?;
        let (first, last) = both(first, made_long(alloc, high))?;
        Ok(Interval {
            first,
            first_is_open: open_low,
            last,
            last_is_open: open_high,
        })
    }
}

/// No LONG value stands here.
#[tactic(auto, unfolding(check_rules::specs::Statements::not_long))]
pub fn not_long(place: Place, a: &Typed) -> Result<(), CheckFault>
    ensures { GivesOnly (λ _. tt) (rule.not_long place (typed a.now)) result }
{
    if is_long(&a.kind) {
        Err(CheckFault::At(Cause::TypeMismatch, place))
    } else {
        Ok(())
    }
}

fn are_related(a: &Typed, b: &Typed) -> bool
    ensures { result ≡ rule.are_related (typed a.now) (typed b.now) }
{
    match relates(&a.kind, a.literal, &b.kind, b.literal) {
        Some(_) => true,
        None => false,
    }
}

/// Operands that fit, of an operation at `place`; they begin at `start` and at `other`.
fn meets(place: Place, start: Place, a: &Typed, other: Place, b: &Typed) -> Result<(), CheckFault>
    ensures { GivesOnly (λ _. tt) (rule.meets place start (typed a.now) other (typed b.now)) result }
{
    if are_related(a, b) {
        return Ok(());
    }
    let fault = beside(place, start, sort_of(&a.kind), other, sort_of(&b.kind));
    Err(CheckFault::At(Cause::TypeMismatch, fault))
}

/// What begins at `start` may be compared with both ends, by IN at `place`.
#[tactic(auto, unfolding(check_rules::specs::Statements::meets_bounds))]
pub fn meets_bounds(place: Place, start: Place, a: &Typed, ends: &Ends) -> Result<(), CheckFault>
    ensures { GivesOnly (λ _. tt) (rule.meets_bounds place start (typed a.now) (view.ends ends.now)) result }
{
    meets(place, start, a, ends.low_place, &ends.low)?;
    meets(place, start, a, ends.high_place, &ends.high)
}

/// Whether one of the three numbers of IN is LONG.
#[tactic(auto, unfolding(check_rules::specs::Statements::is_long_interval))]
pub fn is_long_interval(a: &Typed, ends: &Ends) -> bool
    ensures { result ≡ rule.is_long_interval (typed a.now) (view.ends ends.now) }
{
    is_long(&a.kind) || is_long(&ends.low.kind) || is_long(&ends.high.kind)
}

/// A number of IN as a LONG one.
#[tactic(auto, unfolding(check_rules::specs::Statements::by_itself_of))]
fn made_long(alloc: Global, a: Typed) -> Result<TypedExpr, OutOfMemory>
    ensures { IfOk result (λ made. expr made ≡ rule.by_itself_of (typed a)) }
{
    let fit = by_itself(sort_of(&a.kind), a.literal);
    fitted(alloc, fit, a.into_value())
}

fn lengthening(a: &Typed) -> u32
    ensures value { result ≡ rule.lengthening (typed a.now) }
    ensures few { result ≤ 1 }
{
    if a.literal && !is_long(&a.kind) { 1 } else { 0 }
}

/// How many words the number of IN counts more, since it is a literal that takes a LONG type.
#[tactic(auto, unfolding(check_rules::specs::Statements::longer_number))]
pub fn longer_number(a: &Typed, ends: &Ends) -> u32
    ensures value { result ≡ rule.longer_number (typed a.now) (view.ends ends.now) }
    ensures few { result ≤ 1 }
{
    if is_long_interval(a, ends) {
        lengthening(a)
    } else {
        0
    }
}

/// The same of the two bounds together.
#[tactic(auto, unfolding(check_rules::specs::Statements::longer_bounds))]
pub fn longer_bounds(a: &Typed, ends: &Ends) -> u32
    ensures value { result ≡ rule.longer_bounds (typed a.now) (view.ends ends.now) }
    ensures few { result ≤ 2 }
{
    if is_long_interval(a, ends) {
        lengthening(&ends.low) + lengthening(&ends.high)
    } else {
        0
    }
}

/// The bases by which a value and the ends are compared.
pub fn bases(kind: &TypeTree, ends: &Ends) -> Bases
    ensures { result ≡ rule.bases (plain kind.now) (view.ends ends.now) }
{
    Bases {
        number: sign_of(kind),
        first: sign_of(&ends.low.kind),
        last: sign_of(&ends.high.kind),
    }
}

fn negated(alloc: Global, is_negated: bool, inner: TypedExpr) -> Result<TypedExpr, OutOfMemory>
    ensures { IfOk result (λ made. expr made ≡ spec.negated_by is_negated (expr inner)) }
{
    if is_negated {
        Ok(TypedExpr::Not(boxed(alloc, inner)?))
    } else {
        Ok(inner)
    }
}

fn boxed_both(
    alloc: Global,
    value: TypedExpr,
    between: Interval,
) -> Result<(Boxed<TypedExpr>, Boxed<Interval>), OutOfMemory>
    ensures { IfOk result (λ made. (made.0 ≡ value) × (made.1 ≡ between)) }
{
    let (between, value) = both(between, boxed(alloc, value))?;
    both(value, boxed(alloc, between))
}

fn within_value(bases: Bases, value: Boxed<TypedExpr>, between: Boxed<Interval>) -> TypedExpr
    ensures { expr result ≡ t.Within bases (expr value) (interval between) }
{
    TypedExpr::Within(bases, value, between)
}

fn within_long_value(bases: Bases, value: Boxed<TypedExpr>, between: Boxed<Interval>) -> TypedExpr
    ensures { expr result ≡ t.WithinLong bases (expr value) (interval between) }
{
    TypedExpr::WithinLong(bases, value, between)
}

fn inside(
    alloc: Global,
    is_negated: bool,
    bases: Bases,
    value: TypedExpr,
    between: Interval,
) -> Result<TypedExpr, OutOfMemory>
    ensures { IfOk result (λ made. expr made ≡ spec.negated_by is_negated (t.Within bases (expr value) (interval between))) }
{
    let (value, between) = boxed_both(alloc, value, between)?;
    negated(alloc, is_negated, within_value(bases, value, between))
}

fn inside_long(
    alloc: Global,
    is_negated: bool,
    bases: Bases,
    a: Typed,
    ends: Ends,
) -> Result<TypedExpr, OutOfMemory>
    ensures { IfOk result (λ made. expr made ≡ spec.negated_by is_negated (t.WithinLong bases (rule.by_itself_of (typed a)) (rule.long_between (view.ends ends)))) }
{
    let (ends, value) = both(ends, made_long(alloc, a))?;
    let (value, between) = both(value, ends.into_long_interval(alloc))?;
    let (value, between) = boxed_both(alloc, value, between)?;
    negated(alloc, is_negated, within_long_value(bases, value, between))
}

/// IN takes ordinals of one base, or numbers of any type, and checks no mixed operation; the number begins at `start`.
#[tactic(auto, unfolding(check_rules::specs::Values::within))]
pub fn within(
    alloc: Global,
    is_negated: bool,
    place: Place,
    start: Place,
    a: Typed,
    ends: Ends,
) -> Result<Typed, CheckFault>
    ensures { GivesOnly typed (spec.within is_negated place start (typed a) (view.ends ends)) result }
{
    let fits = meets_bounds(place, start, &a, &ends);
    let ((a, ends), _) = both((a, ends), fits)?;
    let bases = bases(&a.kind, &ends);
    if is_long_interval(&a, &ends) {
        let made = inside_long(alloc, is_negated, bases, a, ends)?;
        return Ok(truth(made));
    }
    let made = inside(
        alloc,
        is_negated,
        bases,
        a.into_value(),
        ends.into_interval(),
    )?;
    Ok(truth(made))
}
