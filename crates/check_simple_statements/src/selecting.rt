//! The tests of a SELECT's arm.
ghost use Rattle.mesa_types.specs.Plain as tree;
ghost use Rattle.syntax_trees.specs.PlainSyntax as plain;
ghost use Rattle.syntax_trees.specs.Syntax as s;
ghost use Rattle.check_selectors.specs.check_values.specs.Views as values;
ghost use Rattle.check_rules.specs.Checking as spec;
ghost use Rattle.check_state.specs.Gives.{Gives};
ghost use Rattle.check_state.specs.Views as words;
ghost use Rattle.check_simple_statements.specs.Rules as rules;
ghost use Rattle.check_simple_statements.specs.Views as view;

use check_declared::{tested, tested_inside};
use check_expressions::{Checker, Phrases};
use check_operands::first;
use check_rules::CheckFault;
use check_selectors::check_values::{Ends, longer, longer_bounds, sort_of};
use check_state::{Aim, Around, State, Typed};
use held_trees::{both, pushed};
use mesa_base::{List, Place, Relation};
use mesa_types::{Test as TypedTest, Tests};
use std::alloc::Global;
use syntax_trees::syntax::Test;

/// What makes a test: whether NOT or ~ stands before it, where it stands, and where the selector begins.
#[derive(Clone, Copy)]
struct Testing {
    is_negated: bool,
    place: Place,
    start: Place,
}

/// A test against a value, which begins at `other`.
fn against(
    alloc: Global,
    state: &mut State,
    how: Testing,
    relation: Relation,
    selector: &Typed,
    other: Place,
    value: Typed,
) -> Result<TypedTest, CheckFault>
    ensures { Gives tree.test (rules.against how.is_negated relation how.place how.start (words.typed selector.now) other (words.typed value) (words.state state.old)) result (words.state state.new) }
{
    let words = longer(
        sort_of(&selector.kind),
        false,
        sort_of(&value.kind),
        value.literal,
    );
    let Testing {
        is_negated,
        place,
        start,
    } = how;
    let made = tested(
        is_negated, relation, place, alloc, start, selector, other, value,
    )?;
    let (made, _) = both(made, state.spend(words))?;
    Ok(made)
}

/// A test whether the selector lies in an interval.
fn lying(
    alloc: Global,
    state: &mut State,
    how: Testing,
    selector: &Typed,
    ends: Ends,
) -> Result<TypedTest, CheckFault>
    ensures { Gives tree.test (rules.lying how.is_negated how.place how.start (words.typed selector.now) (values.ends ends) (words.state state.old)) result (words.state state.new) }
{
    let words = longer_bounds(selector, &ends);
    let made = tested_inside(how.is_negated, how.place, alloc, how.start, selector, ends)?;
    let (made, _) = both(made, state.spend(words))?;
    Ok(made)
}

/// One test of the selector, which begins at `start`.
#[tactic(auto, using(syntax_trees::proofs::PlainForms::test_forms), unfolding(crate::specs::Rules::first_test))]
fn one_test<P: Phrases>(
    checker: &Checker<P>,
    one: &Test,
    around: &Around<'_>,
    state: &mut State,
    start: Place,
    selector: &Typed,
) -> Result<TypedTest, CheckFault>
    requires { P.ask checker.now.phrases }
    ensures { Gives tree.test (rules.first_test (words.around around.now) start (words.typed selector.now) (plain.test one.now s.NoTests) (words.state state.old)) result (words.state state.new) }
{
    let alloc = checker.alloc;
    match one {
        Test::Value(e) => {
            let other = first(e);
            let found = checker.check(e, around, state, Aim::Free(other))?;
            let how = Testing {
                is_negated: false,
                place: other,
                start,
            };
            against(alloc, state, how, Relation::Equal, selector, other, found)
        }
        Test::Compared {
            is_negated,
            relation,
            place,
            right,
        } => {
            let other = first(right);
            let found = checker.check(right, around, state, Aim::Free(other))?;
            let how = Testing {
                is_negated: *is_negated,
                place: *place,
                start,
            };
            against(alloc, state, how, *relation, selector, other, found)
        }
        Test::Inside {
            is_negated,
            place,
            interval,
        } => {
            let ends = checker.interval(interval, around, state)?;
            let how = Testing {
                is_negated: *is_negated,
                place: *place,
                start,
            };
            lying(alloc, state, how, selector, ends)
        }
    }
}

/// The tests of an arm, of the selector, which begins at `start`.
pub fn tests<P: Phrases>(
    checker: &Checker<P>,
    all: &[Test],
    around: &Around<'_>,
    state: &mut State,
    start: Place,
    selector: &Typed,
) -> Result<Tests, CheckFault>
    requires { P.ask checker.now.phrases }
    ensures { Gives view.tests (spec.tests (words.around around.now) start (words.typed selector.now) (plain.tests all.now) (words.state state.old)) result (words.state state.new) }
{
    let mut done = List::new(checker.alloc);
    for one in all {
        let made = one_test(checker, one, around, state, start, selector);
        let (held, made) = both(done, made)?;
        done = pushed(held, made)?;
    }
    Ok(done)
}
