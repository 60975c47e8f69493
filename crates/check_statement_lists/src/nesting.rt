//! Statements that stand inside one another.
ghost use Rattle.mesa_types.specs.Plain.{stmt};
ghost use Rattle.syntax_trees.specs.PlainSyntax as plain;
ghost use Rattle.check_rules.specs.Checking as spec;
ghost use Rattle.check_state.specs.Gives.{Gives};
ghost use Rattle.check_state.specs.Views as view;
ghost use Rattle.check_statement_lists.specs.Asks.{Asks};

use check_rules::CheckFault;
use check_state::{Around, State};
use mesa_types::TypedStmt;
use std::alloc::Global;
use syntax_trees::syntax::Statement;

/// What checks statements that stand in statements.
pub trait Nested {
    /// It may be asked.
    ghost ask: { Self → Type 0 };

    fn statement(
        &self,
        one: &Statement,
        around: &Around<'_>,
        state: &mut State,
    ) -> Result<TypedStmt, CheckFault>
        requires { ask self.now }
        ensures { Gives stmt (spec.statement (view.around around.now) (plain.statement one.now) (view.state state.old)) result (view.state state.new) };
}

/// A function that checks statements, with how many of them may still stand inside one another.
#[derive(Clone, Copy)]
pub struct StatementFunction<F> {
    pub alloc: Global,
    pub depth: usize,
    pub check: F,
}

impl<
    F: Fn(&Statement, Global, usize, &Around<'_>, &mut State) -> Result<TypedStmt, CheckFault>,
> Nested for StatementFunction<F> {
    ghost ask = { λ p. Asks p.depth (F.pre p.check) (F.post p.check) };

    fn statement(
        &self,
        one: &Statement,
        around: &Around<'_>,
        state: &mut State,
    ) -> Result<TypedStmt, CheckFault> {
        (self.check)(one, self.alloc, self.depth, around, state)
    }
}
