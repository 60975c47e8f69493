//! Counted loops: their bounds, and the variable that takes their numbers.
ghost use Rattle.std.specs.Prelude.{◌≡◌, IfOk};
ghost use Rattle.mesa_types.specs.Plain.{expr, interval};
ghost use Rattle.mesa_types.specs.Typed as t;
ghost use Rattle.interface_records.specs.PlainTypes.{plain};
ghost use Rattle.check_rules.specs.Ranges as ranges;
ghost use Rattle.check_rules.specs.Statements as spec;
ghost use Rattle.check_state.specs.Gives.{GivesOnly};
ghost use Rattle.check_state.specs.Views.{meaning};
ghost use Rattle.check_values.specs.Views as value;
ghost use Rattle.check_declared.specs.Views as view;

use check_rules::{Cause, CheckFault};
use check_state::{Meaning, Typed, conforms, is_ordinal};
use check_values::{
    Ends, Meeting, Sort, checked, not_long, number_type, range_for, related, sort_of,
};
use held_trees::{LetGo, both};
use mesa_base::{OutOfMemory, Place};
use mesa_types::{Base, Given, Home, Interval, TypeTree, TypedExpr};
use std::alloc::Global;

/// The bounds of a counted loop, and how its numbers are read.
pub struct Rounds {
    pub base: Base,
    pub kind: TypeTree,
    pub interval: Interval,
}

impl LetGo for Rounds {
    fn let_go(self) {
        let Rounds {
            base: _,
            kind,
            interval,
        } = self;
        kind.let_go();
        interval.let_go();
    }
}

#[tactic(auto, using(check_state::proofs::TypeForms::type_forms))]
fn met_kind(sort: Sort, base: Base, kind: TypeTree) -> TypeTree
    ensures { plain result ≡ spec.met_kind (value.sort sort) base (plain kind) }
{
    match sort {
        Sort::Number(_) => {
            kind.let_go();
            number_type(base)
        }
        Sort::LongNumber(_) | Sort::Letter | Sort::Truth | Sort::Other => kind,
    }
}

fn checked_both(
    alloc: Global,
    meeting: Meeting,
    low: TypedExpr,
    high: TypedExpr,
) -> Result<(TypedExpr, TypedExpr), OutOfMemory>
    ensures { IfOk result (λ made. (expr made.0 ≡ ranges.checked meeting.left (expr low)) × (expr made.1 ≡ ranges.checked meeting.right (expr high))) }
{
    let (high, low) = both(high, checked(alloc, meeting.left, low))?;
    both(low, checked(alloc, meeting.right, high))
}

fn between(open_low: bool, low: TypedExpr, high: TypedExpr, open_high: bool) -> Interval
    ensures { interval result ≡ t.Between (expr low) open_low (expr high) open_high }
{
    Interval {
        first: low,
        first_is_open: open_low,
        last: high,
        last_is_open: open_high,
    }
}

fn rounds_by(alloc: Global, ends: Ends, meeting: Meeting) -> Result<Rounds, OutOfMemory>
    ensures { IfOk result (λ made. view.rounds made ≡ spec.rounds_by (value.ends ends) (value.meeting meeting)) }
{
    let Ends {
        open_low,
        low_place: _,
        low,
        high_place: _,
        high,
        open_high,
    } = ends;
    let Typed {
        value: low,
        kind,
        literal: _,
        gave: _,
    } = low;
    let sort = sort_of(&kind);
    let kind = met_kind(sort, meeting.base, kind);
    let (kind, (low, high)) = both(kind, checked_both(alloc, meeting, low, high.into_value()))?;
    Ok(Rounds {
        base: meeting.base,
        kind,
        interval: between(open_low, low, high, open_high),
    })
}

/// The bounds of a loop that counts between these ends; neither is LONG.
#[tactic(auto, unfolding(check_rules::specs::Statements::rounds))]
pub fn rounds_of(place: Place, alloc: Global, ends: Ends) -> Result<Rounds, CheckFault>
    ensures { GivesOnly view.rounds (spec.rounds place (value.ends ends)) result }
{
    let fits = not_long(ends.low_place, &ends.low);
    let (ends, _) = both(ends, fits)?;
    let fits = not_long(ends.high_place, &ends.high);
    let (ends, _) = both(ends, fits)?;
    match related(
        &ends.low.kind,
        ends.low.literal,
        &ends.high.kind,
        ends.high.literal,
    ) {
        None => {
            ends.let_go();
            Err(CheckFault::At(Cause::TypeMismatch, place))
        }
        Some(meeting) => Ok(rounds_by(alloc, ends, meeting)?),
    }
}

/// The variable of a FOR.
#[derive(Drop)]
pub struct Counter {
    pub home: Home,
    pub kind: TypeTree,
}

/// The variable of a FOR, by what its name means: it has an ordinal type, and so is no LONG one.
pub fn counter_of(place: Place, named: Meaning) -> Result<Counter, CheckFault>
    ensures { GivesOnly view.counter (spec.counter place (meaning named)) result }
{
    match named {
        Meaning::Variable(home, kind) => {
            if is_ordinal(&kind) {
                Ok(Counter { home, kind })
            } else {
                Err(CheckFault::At(Cause::TypeMismatch, place))
            }
        }
        _ => Err(CheckFault::At(Cause::TypeMismatch, place)),
    }
}

/// The variable takes the numbers of the loop, with a check.
#[tactic(auto, unfolding(check_rules::specs::Statements::given))]
pub fn given(place: Place, counter: &Counter, rounds: &Rounds) -> Result<Given, CheckFault>
    ensures { GivesOnly (λ g. g) (spec.given place (view.counter counter.now) (view.rounds rounds.now)) result }
{
    if conforms(&rounds.kind, &counter.kind) {
        Ok(Given::GivenTo(counter.home, range_for(&rounds.kind, &counter.kind)))
    } else {
        Err(CheckFault::At(Cause::TypeMismatch, place))
    }
}
