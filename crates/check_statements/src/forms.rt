//! Statements, by their form.
ghost use Rattle.mesa_types.specs.Plain.{stmt};
ghost use Rattle.syntax_trees.specs.PlainSyntax as plain;
ghost use Rattle.check_rules.specs.Checking as spec;
ghost use Rattle.check_state.specs.Gives.{Gives};
ghost use Rattle.check_state.specs.Views as view;

use crate::checker::StatementChecker;
use crate::making::nothing;
use check_rules::CheckFault;
use check_simple_statements::{
    assign, call, extract, raise_statement, resume_statement, return_statement,
};
use check_state::{Around, State};
use check_statement_lists::Nested;
use check_statement_lists::check_jumps::{
    continue_arm, exit_loop, go_to, next_round, reject, retry,
};
use mesa_types::TypedStmt;
use syntax_trees::syntax::Statement;

impl<N: Nested> StatementChecker<N> {
    /// A statement.
    #[tactic(auto, using(syntax_trees::proofs::PlainForms::statement_forms, check_simple_statements::proofs::JumpClauses::jump_clauses, crate::proofs::Clauses::nested_is))]
    pub fn statement(
        &self,
        one: &Statement,
        around: &Around<'_>,
        state: &mut State,
    ) -> Result<TypedStmt, CheckFault>
        requires { N.ask self.now.expressions.phrases.nested }
        ensures { Gives stmt (spec.statement (view.around around.now) (plain.statement one.now) (view.state state.old)) result (view.state state.new) }
    {
        let checker = &self.expressions;
        match one {
            Statement::Null(_) => Ok(nothing()),
            Statement::Nested(block) => self.block(block, around, state),
            Statement::Assign(left, e) => assign(checker, left, e, around, state),
            Statement::Extract(place, all, e) => extract(checker, all, e, around, state, *place),
            Statement::Call(left) => call(checker, left, around, state),
            Statement::RaiseStatement(of) => raise_statement(checker, of.get(), around, state),
            Statement::If(place, test, body, other) => {
                self.if_statement(*place, test, body.get(), other, around, state)
            }
            Statement::Select(place, selector, cases, other) => {
                let cases = cases.as_slice();
                self.select_statement(*place, selector, cases, other, around, state)
            }
            Statement::Loop(before, place, enable, all, repeats) => self.loop_statement(
                *place,
                before.get(),
                enable,
                all.as_slice(),
                repeats.as_slice(),
                around,
                state,
            ),
            Statement::ExitLoop(place) => exit_loop(around, *place),
            Statement::NextTurn(place) => next_round(around, *place),
            Statement::Goto(place, name) => go_to(around, *place, name),
            Statement::Return(place, list) => {
                return_statement(checker, list, around, state, *place)
            }
            Statement::Resume(place, list) => {
                resume_statement(checker, list, around, state, *place)
            }
            Statement::Reject(place) => reject(around, *place),
            Statement::Retry(place) => retry(around, *place),
            Statement::Continue(place) => continue_arm(around, *place),
        }
    }
}
