//! What stands before a loop's DO.
ghost use Rattle.std.specs.Prelude.{◌≡◌, IfOk};
ghost use Rattle.mesa_types.specs.Plain.{expr, stmt};
ghost use Rattle.mesa_types.specs.Plain as tree;
ghost use Rattle.syntax_trees.specs.PlainSyntax as plain;
ghost use Rattle.mesa_types.specs.Typed as t;
ghost use Rattle.check_rules.specs.Checking as spec;
ghost use Rattle.check_rules.specs.Statements as rule;
ghost use Rattle.check_declared.specs.Views as declared;
ghost use Rattle.check_state.specs.Gives.{Gives, GivesOnly};
ghost use Rattle.check_state.specs.Views as words;
ghost use Rattle.check_simple_statements.specs.Rules as rules;
ghost use Rattle.check_simple_statements.specs.Views as view;

use check_declared::{Counter, Rounds, counter_of, given, rounds_of};
use check_expressions::{Checker, Phrases};
use check_operands::{first, first_of_interval};
use check_rules::CheckFault;
use check_state::{Aim, Around, State, named};
use held_trees::{LetGo, both, boxed};
use mesa_base::{Boxed, Identifier, OutOfMemory, Place};
use mesa_types::{Base, Condition, Given, Loop, TypeTree, TypedExpr, TypedStmt};
use std::alloc::Global;
use syntax_trees::syntax::{self, Control, Count, Expr, Interval};

/// How a loop counts: to what it gives its numbers, whether downward, and its bounds.
pub enum Counted {
    NotCounted,
    By(Given, bool, Rounds),
}

impl LetGo for Counted {
    fn let_go(self) {
        match self {
            Counted::NotCounted => (),
            Counted::By(_, _, rounds) => rounds.let_go(),
        }
    }
}

/// What stands before a DO.
pub struct Controlled {
    pub count: Counted,
    pub condition: Condition,
}

impl LetGo for Controlled {
    fn let_go(self) {
        let Controlled { count, condition } = self;
        count.let_go();
        condition.let_go();
    }
}

/// The value of a test, which is BOOLEAN.
#[tactic(auto, using(check_state::proofs::TypeForms::type_forms))]
pub fn truth_of<P: Phrases>(
    checker: &Checker<P>,
    e: &Expr,
    around: &Around<'_>,
    state: &mut State,
) -> Result<TypedExpr, CheckFault>
    requires { P.ask checker.now.phrases }
    ensures { Gives expr (rules.truth_of (words.around around.now) (plain.expr e.now) (words.state state.old)) result (words.state state.new) }
{
    let boolean = TypeTree::Boolean;
    let found = checker.check(e, around, state, Aim::Into(&boolean, first(e)));
    boolean.let_go();
    Ok(found?.into_value())
}

fn lasting(value: TypedExpr) -> Condition
    ensures { tree.condition result ≡ t.While (expr value) }
{
    Condition::While(value)
}

fn ending(value: TypedExpr) -> Condition
    ensures { tree.condition result ≡ t.Until (expr value) }
{
    Condition::Until(value)
}

fn always() -> Condition
    ensures { tree.condition result ≡ t.Always }
{
    Condition::Always
}

/// WHILE or UNTIL, or none of both.
#[tactic(auto, using(syntax_trees::proofs::PlainForms::condition_forms, crate::proofs::Clauses::condition_none, crate::proofs::Clauses::condition_while, crate::proofs::Clauses::condition_until))]
fn condition<P: Phrases>(
    checker: &Checker<P>,
    of: &Option<syntax::Condition>,
    around: &Around<'_>,
    state: &mut State,
) -> Result<Condition, CheckFault>
    requires { P.ask checker.now.phrases }
    ensures { Gives tree.condition (spec.condition (words.around around.now) (plain.maybe_condition of.now) (words.state state.old)) result (words.state state.new) }
{
    match of {
        None => Ok(always()),
        Some(syntax::Condition::While(_, e)) => {
            let value = truth_of(checker, e, around, state)?;
            Ok(lasting(value))
        }
        Some(syntax::Condition::Until(_, e)) => {
            let value = truth_of(checker, e, around, state)?;
            Ok(ending(value))
        }
    }
}

/// The bounds of a counted loop.
#[tactic(auto, unfolding(crate::specs::Rules::bounds))]
fn bounds<P: Phrases>(
    checker: &Checker<P>,
    interval: &Interval,
    around: &Around<'_>,
    state: &mut State,
) -> Result<Rounds, CheckFault>
    requires { P.ask checker.now.phrases }
    ensures { Gives declared.rounds (rules.bounds (words.around around.now) (plain.interval interval.now) (words.state state.old)) result (words.state state.new) }
{
    let ends = checker.interval(interval, around, state)?;
    rounds_of(first_of_interval(interval), checker.alloc, ends)
}

/// What the loop gives its numbers to.
fn given_to(place: Place, counter: Counter, rounds: &Rounds) -> Result<Given, CheckFault>
    ensures { GivesOnly (λ g. g) (rule.given place (declared.counter counter) (declared.rounds rounds.now)) result }
{
    let found = given(place, &counter, rounds);
    let Counter { home: _, kind } = counter;
    kind.let_go();
    found
}

/// FOR: the numbers of a loop go to this variable.
#[tactic(auto, unfolding(crate::specs::Rules::counted_for))]
fn counted_for<P: Phrases>(
    checker: &Checker<P>,
    variable: &Identifier,
    around: &Around<'_>,
    state: &mut State,
    is_decreasing: bool,
    interval: &Interval,
) -> Result<Counted, CheckFault>
    requires { P.ask checker.now.phrases }
    ensures { Gives view.counted (rules.counted_for (words.around around.now) variable.now is_decreasing (plain.interval interval.now) (words.state state.old)) result (words.state state.new) }
{
    let meaning = named(checker.alloc, around, state, variable)?;
    let Counter { home, kind } = counter_of(variable.place, meaning)?;
    let (kind, rounds) = both(kind, bounds(checker, interval, around, state))?;
    let given = given_to(first_of_interval(interval), Counter { home, kind }, &rounds);
    let (rounds, given) = both(rounds, given)?;
    let (rounds, _) = both(rounds, state.hide(3))?;
    Ok(Counted::By(given, is_decreasing, rounds))
}

/// FOR or THROUGH, or none of both.
#[tactic(auto, using(syntax_trees::proofs::PlainForms::count_forms, crate::proofs::Clauses::counted_none, crate::proofs::Clauses::counted_through, crate::proofs::Clauses::counted_by))]
fn count_of<P: Phrases>(
    checker: &Checker<P>,
    of: &Option<Count>,
    around: &Around<'_>,
    state: &mut State,
) -> Result<Counted, CheckFault>
    requires { P.ask checker.now.phrases }
    ensures { Gives view.counted (spec.counted (words.around around.now) (plain.maybe_count of.now) (words.state state.old)) result (words.state state.new) }
{
    match of {
        None => Ok(Counted::NotCounted),
        Some(Count::Through(_, interval)) => {
            let rounds = bounds(checker, interval, around, state)?;
            let (rounds, _) = both(rounds, state.hide(3))?;
            Ok(Counted::By(Given::NoVariable, false, rounds))
        }
        Some(
            Count::For {
                place: _,
                variable,
                is_decreasing,
                interval,
            },
        ) => counted_for(checker, variable, around, state, *is_decreasing, interval),
    }
}

/// What stands before a DO.
#[tactic(auto, using(syntax_trees::proofs::PlainForms::parts, crate::proofs::Clauses::control_is))]
pub fn control<P: Phrases>(
    checker: &Checker<P>,
    control: &Control,
    around: &Around<'_>,
    state: &mut State,
) -> Result<Controlled, CheckFault>
    requires { P.ask checker.now.phrases }
    ensures { Gives view.controlled (spec.control (words.around around.now) (plain.control control.now) (words.state state.old)) result (words.state state.new) }
{
    let count = count_of(checker, &control.count, around, state)?;
    let condition = condition(checker, &control.condition, around, state);
    let (count, condition) = both(count, condition)?;
    Ok(Controlled { count, condition })
}

fn repeated(of: Boxed<Loop>) -> TypedStmt
    ensures { stmt result ≡ t.Repeat t.Endless (tree.loop of) }
{
    TypedStmt::Repeat(of)
}

fn counting(
    given: Given,
    is_decreasing: bool,
    base: Base,
    interval: Boxed<mesa_types::Interval>,
    of: Boxed<Loop>,
) -> TypedStmt
    ensures { stmt result ≡ t.For given is_decreasing base (tree.interval interval) (tree.loop of) }
{
    TypedStmt::For(given, is_decreasing, base, interval, of)
}

/// A loop with its count.
pub fn looped(alloc: Global, count: Counted, of: Loop) -> Result<TypedStmt, OutOfMemory>
    ensures { IfOk result (λ made. stmt made ≡ rule.looped (view.counted count) (tree.loop of)) }
{
    let (count, of) = both(count, boxed(alloc, of))?;
    match count {
        Counted::NotCounted => Ok(repeated(of)),
        Counted::By(given, is_decreasing, rounds) => {
            let Rounds {
                base,
                kind,
                interval,
            } = rounds;
            kind.let_go();
            let (of, interval) = both(of, boxed(alloc, interval))?;
            Ok(counting(given, is_decreasing, base, interval, of))
        }
    }
}
