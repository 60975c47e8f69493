//! Whether a catch phrase stands in targets or tests.
ghost use Rattle.std.specs.Prelude.{◌≡◌, ◌||◌};
ghost use Rattle.syntax_trees.specs.PlainSyntax as plain;
ghost use Rattle.syntax_trees.specs.Syntax as s;
ghost use Rattle.check_rules.specs.Phrases as spec;

use check_phrases::{holds, interval_holds, left_holds};
use syntax_trees::syntax::{Case, Entries, Keyed, Left, Test};

fn lefts_hold(all: &[Left]) -> bool
    ensures { result ≡ spec.in_lefts (plain.lefts all.now) }
{
    for left in all {
        if left_holds(left) {
            return true;
        }
    }
    false
}

fn keyed_hold(all: &[Keyed<Left>]) -> bool
    ensures { result ≡ spec.in_keyed_lefts (plain.keyed_lefts all.now) }
{
    for one in all {
        if left_holds(&one.item) {
            return true;
        }
    }
    false
}

/// Whether a catch phrase stands in the targets of an extractor.
#[tactic(auto, unfolding(check_rules::specs::Phrases::in_targets))]
pub(crate) fn targets_hold(all: &Entries<Left>) -> bool
    ensures { result ≡ spec.in_targets (plain.targets all.now) }
{
    match all {
        Entries::Nothing => false,
        Entries::InOrder(all) => lefts_hold(all.as_slice()),
        Entries::ByKey(all) => keyed_hold(all.as_slice()),
    }
}

#[tactic(auto, using(syntax_trees::proofs::PlainForms::test_forms), unfolding(check_rules::specs::Phrases::in_tests))]
fn test_holds(test: &Test) -> bool
    ensures { (rest : s.Tests) → spec.in_tests (plain.test test.now rest) ≡ (result || spec.in_tests rest) }
{
    match test {
        Test::Value(e) => holds(e),
        Test::Compared { right, .. } => holds(right),
        Test::Inside { interval, .. } => interval_holds(interval),
    }
}

fn tests_hold(all: &[Test]) -> bool
    ensures { result ≡ spec.in_tests (plain.tests all.now) }
{
    for test in all {
        if test_holds(test) {
            return true;
        }
    }
    false
}

/// Whether a catch phrase stands in the tests of a SELECT.
pub fn cases_hold(all: &[Case]) -> bool
    ensures { result ≡ spec.in_cases (plain.cases all.now) }
{
    for case in all {
        if tests_hold(case.tests.as_slice()) {
            return true;
        }
    }
    false
}
