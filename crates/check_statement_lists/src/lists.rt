//! Statements, one after the other.
ghost use Rattle.mesa_types.specs.Plain.{stmt};
ghost use Rattle.syntax_trees.specs.PlainSyntax as plain;
ghost use Rattle.check_state.specs.Gives.{Gives};
ghost use Rattle.check_state.specs.Views as view;
ghost use Rattle.check_rules.specs.Checking as spec;
ghost use Rattle.check_statement_lists.specs.Turns as turns;
ghost use Rattle.check_statement_lists.specs.Views as views;

use crate::nesting::Nested;
use crate::phrases::NestedChecker;
use check_rules::CheckFault;
use check_state::{Around, State};
use held_trees::{both, pushed};
use mesa_base::List;
use mesa_types::Stmts;
use syntax_trees::syntax::Statement;

impl<N: Nested> NestedChecker<N> {
    /// Statements, one after the other, behind others that are checked.
    pub fn statements_behind(
        &self,
        all: &[Statement],
        around: &Around<'_>,
        state: &mut State,
        before: Stmts,
    ) -> Result<Stmts, CheckFault>
        requires { N.ask self.now.nested }
        ensures { Gives views.stmts (turns.statements_behind (view.around around.now) (views.stmts before) (plain.statements all.now) (view.state state.old)) result (view.state state.new) }
    {
        let mut done = before;
        for one in all {
            let (held, next) = both(done, self.nested.statement(one, around, state))?;
            done = pushed(held, next)?;
        }
        Ok(done)
    }

    /// Statements, one after the other.
    pub fn statements(
        &self,
        all: &[Statement],
        around: &Around<'_>,
        state: &mut State,
    ) -> Result<Stmts, CheckFault>
        requires { N.ask self.now.nested }
        ensures { Gives views.stmts (spec.statements (view.around around.now) (plain.statements all.now) (view.state state.old)) result (view.state state.new) }
    {
        self.statements_behind(all, around, state, List::new(self.alloc))
    }
}
