//! Typed statements, from their parts.
ghost use Rattle.std.specs.Prelude.{◌≡◌};
ghost use Rattle.mesa_types.specs.Plain.{case, condition, expr, loop, phrase, stmt};
ghost use Rattle.mesa_types.specs.Typed as t;
ghost use Rattle.check_rules.specs.Statements as rule;
ghost use Rattle.check_state.specs.Views as words;
ghost use Rattle.check_simple_statements.specs.Views as clauses;
ghost use Rattle.check_statement_lists.specs.Views as nested;
ghost use Rattle.check_statements.specs.Views as views;

use check_state::{Typed, is_long};
use check_statement_lists::Left;
use mesa_base::{Boxed, List};
use mesa_types::{Case, Cases, Condition, Exits, Loop, Phrase, Stmts, Tests, TypedExpr, TypedStmt};
use std::alloc::Global;

pub fn nothing() -> TypedStmt
    ensures { stmt result ≡ t.Null }
{
    TypedStmt::Null
}

pub fn marked(number: u32, made: Boxed<TypedStmt>) -> TypedStmt
    ensures { stmt result ≡ t.Marked number (stmt made) }
{
    TypedStmt::Marked(number, made)
}

pub fn choice(test: TypedExpr, body: Boxed<TypedStmt>, other: Boxed<TypedStmt>) -> TypedStmt
    ensures { stmt result ≡ t.If (expr test) (stmt body) (stmt other) }
{
    TypedStmt::If(test, body, other)
}

#[tactic(auto, unfolding(check_simple_statements::specs::Views::tests))]
pub fn case_of(tests: Tests, body: TypedStmt) -> Case
    ensures { case result ≡ t.AndCase (clauses.tests tests) (stmt body) }
{
    Case { tests, body }
}

/// A SELECT of a word or of a LONG number.
#[tactic(auto, unfolding(check_rules::specs::Statements::selected, crate::specs::Views::cases))]
pub fn selection(selector: Typed, cases: Cases, other: Boxed<TypedStmt>) -> TypedStmt
    ensures { stmt result ≡ rule.selected (words.typed selector) (views.cases cases (t.Otherwise (stmt other))) }
{
    let is_long = is_long(&selector.kind);
    let value = selector.into_value();
    if is_long {
        TypedStmt::SelectLong(value, cases, other)
    } else {
        TypedStmt::Select(value, cases, other)
    }
}

#[tactic(auto, unfolding(check_statement_lists::specs::Views::stmts, check_statement_lists::specs::Views::exits))]
pub fn block_of(catch: Boxed<Phrase>, statements: Stmts, exits: Exits) -> TypedStmt
    ensures { stmt result ≡ t.Block (phrase catch) (nested.stmts statements) (nested.exits exits) }
{
    TypedStmt::Block(catch, statements, exits)
}

#[tactic(auto, unfolding(check_statement_lists::specs::Views::exits))]
pub fn no_exits(alloc: Global) -> Exits
    ensures { nested.exits result ≡ t.NoExits }
{
    List::new(alloc)
}

#[tactic(auto, using(crate::proofs::ListLaws::finish_is), unfolding(check_statement_lists::specs::Views::onto))]
pub fn loop_of(test: Condition, body: TypedStmt, left: Left) -> Loop
    ensures { loop result ≡ t.LoopOf (condition test) (stmt body) (nested.left left).exits (nested.left left).finished }
{
    let Left { exits, finished } = left;
    Loop {
        condition: test,
        body,
        exits,
        finished,
    }
}
