//! The cycle that ties the levels of nesting, and the calls from outside.
ghost use Rattle.std.specs.Prelude.{[], Ok};
ghost use Rattle.mesa_types.specs.Plain as tree;
ghost use Rattle.syntax_trees.specs.PlainSyntax as plain;
ghost use Rattle.check_rules.specs.Checking as spec;
ghost use Rattle.check_rules.specs.Parts.{join_stmts};
ghost use Rattle.check_rules.specs.Steps.{and_then};
ghost use Rattle.check_statement_lists.specs.Views as nested;
ghost use Rattle.check_state.specs.Gives.{Gives};
ghost use Rattle.check_state.specs.Views as view;

use crate::checker::over;
use check_rules::CheckFault;
use check_state::{Around, State};
use check_statement_lists::StatementFunction;
use mesa_base::limits::NESTING;
use mesa_types::{Exits, Phrase, Stmts, TypedStmt};
use std::alloc::Global;
use syntax_trees::syntax::{self, Block, Exit, Statement};

/// A statement, where so many may stand inside one another, itself counted; a deeper one wants memory. The parsers refuse a text that
/// has more than `NESTING`.
#[cycle(nest)]
fn at(
    one: &Statement,
    alloc: Global,
    depth: usize,
    around: &Around<'_>,
    state: &mut State,
) -> Result<TypedStmt, CheckFault>
    ensures { Gives tree.stmt (spec.statement (view.around around.now) (plain.statement one.now) (view.state state.old)) result (view.state state.new) }
{
    if depth == 0 {
        return Err(CheckFault::Memory);
    }
    let nested = StatementFunction {
        alloc,
        depth: depth - 1,
        check: at,
    };
    let checker = over(alloc, nested);
    let made = checker.statement(one, around, state);
    checker.end();
    made
}

/// A catch phrase, if there is one.
pub fn phrase(
    catch: &Option<syntax::Phrase>,
    alloc: Global,
    around: &Around<'_>,
    state: &mut State,
) -> Result<Phrase, CheckFault>
    ensures { Gives tree.phrase (spec.phrase (view.around around.now) (plain.phrase catch.now) (view.state state.old)) result (view.state state.new) }
{
    let nested = StatementFunction {
        alloc,
        depth: NESTING,
        check: at,
    };
    let checker = over(alloc, nested);
    let made = checker.phrase(catch, around, state);
    checker.end();
    made
}

/// A block: its declarations, ENABLE and statements in a scope of their own, and its EXITS outside of it.
pub fn block(
    one: &Block,
    alloc: Global,
    around: &Around<'_>,
    state: &mut State,
) -> Result<TypedStmt, CheckFault>
    ensures { Gives tree.stmt (spec.block (view.around around.now) (plain.block one.now) (view.state state.old)) result (view.state state.new) }
{
    let nested = StatementFunction {
        alloc,
        depth: NESTING,
        check: at,
    };
    let checker = over(alloc, nested);
    let made = checker.block(one, around, state);
    checker.end();
    made
}

/// The statements of an EXITS, whose labels have numbers from those around on.
pub fn exits(
    all: &[Exit],
    alloc: Global,
    around: &Around<'_>,
    state: &mut State,
) -> Result<Exits, CheckFault>
    ensures { Gives nested.exits (spec.exits (view.around around.now) (view.around around.now).labelled [] (plain.exits all.now) (view.state state.old)) result (view.state state.new) }
{
    let nested = StatementFunction {
        alloc,
        depth: NESTING,
        check: at,
    };
    let checker = over(alloc, nested);
    let made = checker.expressions.phrases.exits(all, around, state);
    checker.end();
    made
}

/// Statements, one after the other, behind those that are there.
#[tactic(auto, unfolding(check_statement_lists::specs::Turns::statements_behind))]
pub fn statements_behind(
    before: Stmts,
    all: &[Statement],
    alloc: Global,
    around: &Around<'_>,
    state: &mut State,
) -> Result<Stmts, CheckFault>
    ensures { Gives nested.stmts (and_then (spec.statements (view.around around.now) (plain.statements all.now) (view.state state.old)) (λ r. Ok (join_stmts (nested.stmts before) r.0, r.1))) result (view.state state.new) }
{
    let nested = StatementFunction {
        alloc,
        depth: NESTING,
        check: at,
    };
    let checker = over(alloc, nested);
    let lists = &checker.expressions.phrases;
    let made = lists.statements_behind(all, around, state, before);
    checker.end();
    made
}
