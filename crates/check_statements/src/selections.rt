//! IF and SELECT.
ghost use Rattle.std.specs.Prelude.{◌≡◌, ◌||◌};
ghost use Rattle.mesa_types.specs.Plain as tree;
ghost use Rattle.syntax_trees.specs.PlainSyntax as plain;
ghost use Rattle.syntax_trees.specs.Syntax as s;
ghost use Rattle.check_rules.specs.Checking as spec;
ghost use Rattle.check_rules.specs.Phrases as phrases;
ghost use Rattle.check_state.specs.Gives.{Gives};
ghost use Rattle.check_state.specs.Views as view;
ghost use Rattle.check_statements.specs.Rules as rules;
ghost use Rattle.check_statements.specs.Turns as turns;
ghost use Rattle.check_statements.specs.Views as views;

use crate::checker::StatementChecker;
use crate::making::{case_of, choice, nothing, selection};
use check_rules::CheckFault;
use check_simple_statements::check_declared::held_words;
use check_simple_statements::check_operands::first;
use check_simple_statements::check_phrases::holds;
use check_simple_statements::{Whole, cases_hold, tests, truth_of};
use check_state::{Aim, Around, State, Typed};
use check_statement_lists::Nested;
use held_trees::{both, boxed, boxed_pair, pushed};
use mesa_base::{Boxed, List, Place};
use mesa_types::{Case, Cases, TypedStmt};
use syntax_trees::syntax::{self, Expr, Statement};

/// Whether a catch phrase stands in a SELECT, outside of its statements.
fn select_holds(selector: &Expr, cases: &[syntax::Case]) -> bool
    ensures { result ≡ (phrases.holds (plain.expr selector.now) || phrases.in_cases (plain.cases cases.now)) }
{
    holds(selector) || cases_hold(cases)
}

impl<N: Nested> StatementChecker<N> {
    /// What stands behind ELSE or ENDCASE, if there is something.
    #[tactic(auto, using(crate::proofs::Clauses::otherwise_none, crate::proofs::Clauses::otherwise_some))]
    fn otherwise(
        &self,
        other: &Option<Boxed<Statement>>,
        around: &Around<'_>,
        state: &mut State,
    ) -> Result<TypedStmt, CheckFault>
        requires { N.ask self.now.expressions.phrases.nested }
        ensures { Gives tree.stmt (spec.otherwise (view.around around.now) (plain.maybe_statement other.now) (view.state state.old)) result (view.state state.new) }
    {
        match other {
            None => Ok(nothing()),
            Some(body) => self.nested(body.get(), around, state),
        }
    }

    /// The parts of an IF.
    #[tactic(auto, unfolding(crate::specs::Rules::if_inside))]
    fn if_inside(
        &self,
        test: &Expr,
        body: &Statement,
        other: &Option<Boxed<Statement>>,
        around: &Around<'_>,
        state: &mut State,
    ) -> Result<TypedStmt, CheckFault>
        requires { N.ask self.now.expressions.phrases.nested }
        ensures { Gives tree.stmt (rules.if_inside (view.around around.now) (plain.expr test.now) (plain.statement body.now) (plain.maybe_statement other.now) (view.state state.old)) result (view.state state.new) }
    {
        let test = truth_of(&self.expressions, test, around, state)?;
        let (test, body) = both(test, self.nested(body, around, state))?;
        let ((test, body), other) = both((test, body), self.otherwise(other, around, state))?;
        let (test, (body, other)) = both(test, boxed_pair(self.alloc(), body, other))?;
        Ok(choice(test, body, other))
    }

    /// An IF.
    #[tactic(auto, using(crate::proofs::Clauses::if_is))]
    pub fn if_statement(
        &self,
        place: Place,
        test: &Expr,
        body: &Statement,
        other: &Option<Boxed<Statement>>,
        around: &Around<'_>,
        state: &mut State,
    ) -> Result<TypedStmt, CheckFault>
        requires { N.ask self.now.expressions.phrases.nested }
        ensures { Gives tree.stmt (spec.statement (view.around around.now) (s.If place (plain.expr test.now) (plain.statement body.now) (plain.maybe_statement other.now)) (view.state state.old)) result (view.state state.new) }
    {
        let whole = Whole::begin(around, state, holds(test), 0, place)?;
        let made = self.if_inside(test, body, other, &whole.inner, state)?;
        whole.end(self.alloc(), state, made)
    }

    /// The arms of a SELECT whose selector begins at `start`.
    fn cases(
        &self,
        all: &[syntax::Case],
        around: &Around<'_>,
        state: &mut State,
        start: Place,
        selector: &Typed,
    ) -> Result<Cases, CheckFault>
        requires { N.ask self.now.expressions.phrases.nested }
        ensures { Gives views.cases (spec.cases (view.around around.now) start (view.typed selector.now) (plain.cases all.now) (view.state state.old)) result (view.state state.new) }
    {
        let mut done = List::new(self.alloc());
        for one in all {
            let (held, case) = both(done, self.case(one, around, state, start, selector))?;
            done = pushed(held, case)?;
        }
        Ok(done)
    }

    /// An arm of a SELECT.
    #[tactic(auto, unfolding(crate::specs::Turns::one_case))]
    fn case(
        &self,
        one: &syntax::Case,
        around: &Around<'_>,
        state: &mut State,
        start: Place,
        selector: &Typed,
    ) -> Result<Case, CheckFault>
        requires { N.ask self.now.expressions.phrases.nested }
        ensures { Gives tree.case (turns.one_case (view.around around.now) start (view.typed selector.now) one.now (view.state state.old)) result (view.state state.new) }
    {
        let all = one.tests.as_slice();
        let tests = tests(&self.expressions, all, around, state, start, selector)?;
        let (tests, body) = both(tests, self.nested(&one.body, around, state))?;
        Ok(case_of(tests, body))
    }

    /// The parts of a SELECT.
    #[tactic(auto, unfolding(crate::specs::Rules::select_inside))]
    fn select_inside(
        &self,
        selector: &Expr,
        cases: &[syntax::Case],
        other: &Option<Boxed<Statement>>,
        around: &Around<'_>,
        state: &mut State,
    ) -> Result<TypedStmt, CheckFault>
        requires { N.ask self.now.expressions.phrases.nested }
        ensures { Gives tree.stmt (rules.select_inside (view.around around.now) (plain.expr selector.now) (plain.cases cases.now) (plain.maybe_statement other.now) (view.state state.old)) result (view.state state.new) }
    {
        let start = first(selector);
        let selector = self
            .expressions
            .check(selector, around, state, Aim::Free(start))?;
        let words = held_words(&selector);
        let (selector, _) = both(selector, state.hide(words))?;
        let cases = self.cases(cases, around, state, start, &selector);
        let held = both(selector, cases)?;
        let (held, other) = both(held, self.otherwise(other, around, state))?;
        let ((selector, cases), other) = both(held, boxed(self.alloc(), other))?;
        Ok(selection(selector, cases, other))
    }

    /// A SELECT.
    #[tactic(auto, using(crate::proofs::Clauses::select_is))]
    pub fn select_statement(
        &self,
        place: Place,
        selector: &Expr,
        cases: &[syntax::Case],
        other: &Option<Boxed<Statement>>,
        around: &Around<'_>,
        state: &mut State,
    ) -> Result<TypedStmt, CheckFault>
        requires { N.ask self.now.expressions.phrases.nested }
        ensures { Gives tree.stmt (spec.statement (view.around around.now) (s.Select place (plain.expr selector.now) (plain.cases cases.now) (plain.maybe_statement other.now)) (view.state state.old)) result (view.state state.new) }
    {
        let has_phrase = select_holds(selector, cases);
        let whole = Whole::begin(around, state, has_phrase, 0, place)?;
        let made = self.select_inside(selector, cases, other, &whole.inner, state)?;
        whole.end(self.alloc(), state, made)
    }
}
