//! What the declarations of a program leave: procedures, and the statements that give initial values.
ghost use Rattle.std.specs.Prelude.{◌≡◌, map, IfOk};
ghost use Rattle.check_programs.specs.Turns as step;
ghost use Rattle.check_programs.specs.Views as view;
ghost use Rattle.check_state.specs.Gives.{Gives};
ghost use Rattle.check_state.specs.Views as words;
ghost use Rattle.check_rules.specs.Programs as spec;
ghost use Rattle.syntax_trees.specs.PlainSyntax as plain;

use crate::catches::Catches;
use crate::found::Stated;
use crate::procedures::procedure;
use check_rules::CheckFault;
use check_state::{Around, State};
use check_statement_lists::check_expressions::Checker;
use check_statements::check_locals::initial;
use held_trees::{LetGo, both, pushed};
use mesa_base::{List, OutOfMemory};
use mesa_types::{Stmts, TypedProcedure, TypedProcedures, TypedStmt};
use std::alloc::Global;
use std::collections::VecDeque;
use syntax_trees::syntax::{Declaration, Declared};

/// What one declaration leaves.
pub enum Value {
    Nothing,
    OfStatement(TypedStmt),
    OfProcedure(TypedProcedure),
}

impl LetGo for Value {
    fn let_go(self) {
        match self {
            Value::Nothing => (),
            Value::OfStatement(statement) => statement.let_go(),
            Value::OfProcedure(procedure) => procedure.let_go(),
        }
    }
}

/// What all of them leave.
pub struct Values {
    pub procedures: TypedProcedures,
    pub statements: Stmts,
}

impl LetGo for Values {
    fn let_go(self) {
        let Values {
            procedures,
            statements,
        } = self;
        procedures.let_go();
        statements.let_go();
    }
}

#[tactic(auto, unfolding(check_statement_lists::specs::Views::stmts))]
fn no_values(alloc: Global) -> Values
    ensures { view.values result ≡ step.no_values }
{
    Values {
        procedures: List::new(alloc),
        statements: List::new(alloc),
    }
}

#[tactic(auto, unfolding(check_rules::specs::Programs::value_of, check_state::specs::Views::around))]
fn value_of(
    one: &Declaration,
    head: Stated,
    checker: &Checker<Catches>,
    around: &Around<'_>,
    state: &mut State,
) -> Result<Value, CheckFault>
    ensures { Gives view.value (spec.value_of (words.around around.now) one.now.names (plain.declared one.now.declared) (view.stated head) (words.state state.old)) result (words.state state.new) }
{
    let names = one.names.as_slice();
    match head {
        Stated::Data(headed) => match &one.declared {
            Declared::Data(item) => {
                match initial(checker, item, around, state, names, headed)? {
                    None => Ok(Value::Nothing),
                    Some(statement) => Ok(Value::OfStatement(statement)),
                }
            }
            Declared::Procedure(_, _) => Ok(Value::Nothing),
            Declared::Signal(_) => Ok(Value::Nothing),
            Declared::Error(_) => Ok(Value::Nothing),
        },
        Stated::Procedure(head) => match &one.declared {
            Declared::Procedure(_, block) => {
                let procedure = procedure(names, head, block, around.known, checker.alloc, state)?;
                Ok(Value::OfProcedure(procedure))
            }
            Declared::Data(_) => Ok(Value::Nothing),
            Declared::Signal(_) => Ok(Value::Nothing),
            Declared::Error(_) => Ok(Value::Nothing),
        },
        Stated::Signal => Ok(Value::Nothing),
    }
}

/// What is there, and what one declaration leaves behind it.
#[tactic(auto, using(crate::proofs::ValueLaws::nothing_more, crate::proofs::ValueLaws::statement_more, crate::proofs::ValueLaws::procedure_more))]
fn with_value(done: Values, value: Value) -> Result<Values, OutOfMemory>
    ensures { IfOk result (λ made. view.values made ≡ step.behind (view.values done) (view.value value step.no_values)) }
{
    let Values {
        procedures,
        statements,
    } = done;
    match value {
        Value::Nothing => Ok(Values {
            procedures,
            statements,
        }),
        Value::OfStatement(statement) => {
            let (procedures, statements) = both(procedures, pushed(statements, statement))?;
            Ok(Values {
                procedures,
                statements,
            })
        }
        Value::OfProcedure(procedure) => {
            let (statements, procedures) = both(statements, pushed(procedures, procedure))?;
            Ok(Values {
                procedures,
                statements,
            })
        }
    }
}

/// What the declarations with these heads leave.
pub fn values_of(
    declarations: &[Declaration],
    heads: VecDeque<Stated>,
    checker: &Checker<Catches>,
    around: &Around<'_>,
    state: &mut State,
) -> Result<Values, CheckFault>
    ensures { Gives view.values (step.values_by (words.around around.now) (map plain.declaration declarations.now) (map view.stated heads.items) (words.state state.old)) result (words.state state.new) }
{
    let mut heads = heads;
    let mut done = no_values(checker.alloc);
    for one in declarations {
        let Some(head) = heads.pop_front() else {
            return Ok(done);
        };
        let (held, value) = both(done, value_of(one, head, checker, around, state))?;
        done = with_value(held, value)?;
    }
    Ok(done)
}
