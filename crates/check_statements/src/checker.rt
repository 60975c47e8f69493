//! What checks statements, over what checks those that stand in them.
ghost use Rattle.std.specs.Prelude.{◌≡◌};
ghost use Rattle.mesa_types.specs.Plain.{phrase as plain_phrase, stmt};
ghost use Rattle.syntax_trees.specs.PlainSyntax as plain;
ghost use Rattle.check_rules.specs.Checking as spec;
ghost use Rattle.check_state.specs.Gives.{Gives};
ghost use Rattle.check_state.specs.Views as view;

use check_rules::CheckFault;
use check_simple_statements::check_expressions::{Checker, Phrases};
use check_state::{Around, State};
use check_statement_lists::{Nested, NestedChecker};
use mesa_types::{Phrase, TypedStmt};
use std::alloc::Global;
use syntax_trees::syntax::{self, Statement};

/// The checker of one level of nesting; its expressions ask it for their phrases.
pub struct StatementChecker<N> {
    pub expressions: Checker<NestedChecker<N>>,
}

/// Over what checks the statements one level deeper.
pub fn over<N>(alloc: Global, nested: N) -> StatementChecker<N>
    ensures { result.expressions.phrases.nested ≡ nested }
{
    StatementChecker {
        expressions: Checker {
            alloc,
            phrases: NestedChecker { alloc, nested },
        },
    }
}

impl<N: Copy> StatementChecker<N> {
    /// It is not needed any more.
    pub fn end(self) {
        let StatementChecker {
            expressions: Checker {
                alloc: _,
                phrases: _,
            },
        } = self;
    }
}

impl<N> StatementChecker<N> {
    pub fn alloc(&self) -> Global {
        self.expressions.alloc
    }
}

impl<N: Nested> StatementChecker<N> {
    /// A statement that stands in another.
    pub fn nested(
        &self,
        one: &Statement,
        around: &Around<'_>,
        state: &mut State,
    ) -> Result<TypedStmt, CheckFault>
        requires { N.ask self.now.expressions.phrases.nested }
        ensures { Gives stmt (spec.statement (view.around around.now) (plain.statement one.now) (view.state state.old)) result (view.state state.new) }
    {
        self.expressions
            .phrases
            .nested
            .statement(one, around, state)
    }

    /// A catch phrase, if there is one.
    pub fn phrase(
        &self,
        catch: &Option<syntax::Phrase>,
        around: &Around<'_>,
        state: &mut State,
    ) -> Result<Phrase, CheckFault>
        requires { N.ask self.now.expressions.phrases.nested }
        ensures { Gives plain_phrase (spec.phrase (view.around around.now) (plain.phrase catch.now) (view.state state.old)) result (view.state state.new) }
    {
        self.expressions.phrases.phrase(catch, around, state)
    }
}
