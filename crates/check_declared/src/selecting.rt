//! Tests of a SELECT.
ghost use Rattle.std.specs.Prelude.{◌≡◌, IfOk};
ghost use Rattle.mesa_types.specs.Plain.{expr, interval, test};
ghost use Rattle.mesa_types.specs.Typed as t;
ghost use Rattle.check_rules.specs.Statements as spec;
ghost use Rattle.check_state.specs.Gives.{GivesOnly};
ghost use Rattle.check_state.specs.Views.{typed};
ghost use Rattle.check_values.specs.Views as view;

use check_rules::{Cause, CheckFault};
use check_state::{Typed, is_long};
use check_values::{
    Ends, Meeting, Relating, bases, beside, checked, fitted, is_long_interval, meets_bounds,
    relates, selecting, selecting_itself, sort_of, turned,
};
use held_trees::{LetGo, both};
use mesa_base::{OutOfMemory, Place, Relation};
use mesa_types::{Base, Bases, Conversion, Interval, Test, TypedExpr};
use std::alloc::Global;

fn related_test(meeting: Meeting, relation: Relation, value: TypedExpr) -> Test
    ensures { test result ≡ t.IfRelated meeting.left meeting.base relation (expr value) }
{
    Test::IfRelated(meeting.left, meeting.base, relation, value)
}

fn long_test(conversion: Conversion, base: Base, relation: Relation, value: TypedExpr) -> Test
    ensures { test result ≡ t.IfRelatedLong conversion base relation (expr value) }
{
    Test::IfRelatedLong(conversion, base, relation, value)
}

fn test_by(
    relation: Relation,
    alloc: Global,
    selector: &Typed,
    value: Typed,
    relating: Relating,
) -> Result<Test, OutOfMemory>
    ensures { IfOk result (λ made. test made ≡ spec.test_by relation (typed selector.now) (typed value) (view.relating relating)) }
{
    match relating {
        Relating::Words(meeting) => {
            let value = checked(alloc, meeting.right, value.into_value())?;
            Ok(related_test(meeting, relation, value))
        }
        Relating::Longs(meeting) => {
            let sort = sort_of(&selector.kind);
            let conversion = selecting(meeting.base, sort, selector.literal);
            let value = fitted(alloc, meeting.right, value.into_value())?;
            Ok(long_test(conversion, meeting.base, relation, value))
        }
    }
}

/// A test of the selector, which begins at `start`, against a value, which begins at `other`.
#[tactic(auto, unfolding(check_rules::specs::Statements::tested))]
pub fn tested(
    is_negated: bool,
    relation: Relation,
    place: Place,
    alloc: Global,
    start: Place,
    selector: &Typed,
    other: Place,
    value: Typed,
) -> Result<Test, CheckFault>
    ensures { GivesOnly test (spec.tested is_negated relation place start (typed selector.now) other (typed value)) result }
{
    match relates(&selector.kind, selector.literal, &value.kind, value.literal) {
        None => {
            let (left, right) = (sort_of(&selector.kind), sort_of(&value.kind));
            value.let_go();
            let fault = beside(place, start, left, other, right);
            Err(CheckFault::At(Cause::TypeMismatch, fault))
        }
        Some(relating) => {
            let relation = turned(is_negated, relation);
            Ok(test_by(relation, alloc, selector, value, relating)?)
        }
    }
}

fn inside_test(is_negated: bool, bases: Bases, between: Interval) -> Test
    ensures { test result ≡ t.IfWithin is_negated bases (interval between) }
{
    Test::IfWithin(is_negated, bases, between)
}

fn long_inside_test(
    is_negated: bool,
    conversion: Conversion,
    bases: Bases,
    between: Interval,
) -> Test
    ensures { test result ≡ t.IfWithinLong is_negated conversion bases (interval between) }
{
    Test::IfWithinLong(is_negated, conversion, bases, between)
}

/// A test whether the selector, which begins at `start`, lies in an interval.
#[tactic(auto, unfolding(check_rules::specs::Statements::tested_inside))]
pub fn tested_inside(
    is_negated: bool,
    place: Place,
    alloc: Global,
    start: Place,
    selector: &Typed,
    ends: Ends,
) -> Result<Test, CheckFault>
    ensures { GivesOnly test (spec.tested_inside is_negated place start (typed selector.now) (view.ends ends)) result }
{
    let fits = meets_bounds(place, start, selector, &ends);
    let (ends, _) = both(ends, fits)?;
    let bases = bases(&selector.kind, &ends);
    if is_long_interval(selector, &ends) {
        let conversion = selecting_itself(sort_of(&selector.kind));
        let between = ends.into_long_interval(alloc)?;
        Ok(long_inside_test(is_negated, conversion, bases, between))
    } else {
        Ok(inside_test(is_negated, bases, ends.into_interval()))
    }
}

/// The hidden words that hold a selector.
pub fn held_words(selector: &Typed) -> u32
    ensures { result ≡ spec.held_words (typed selector.now) }
{
    if is_long(&selector.kind) { 2 } else { 1 }
}
