//! One step of a run of operators or of a name's suffixes, once its parts are checked.
ghost use Rattle.std.specs.Prelude.{◌≡◌, ◌∷◌, [], IfOk};
ghost use Rattle.mesa_types.specs.Plain.{expr};
ghost use Rattle.mesa_types.specs.Operators as operators;
ghost use Rattle.syntax_trees.specs.PlainSyntax as tree;
ghost use Rattle.mesa_types.specs.Typed as t;
ghost use Rattle.check_rules.specs.Values as spec;
ghost use Rattle.check_state.specs.Gives.{GivesOnly};
ghost use Rattle.check_state.specs.Views.{typed};
ghost use Rattle.check_operands.specs.Runs as runs;
ghost use Rattle.check_operands.specs.Views as view;

use check_rules::CheckFault;
use check_rules::typed_answers::truth as word_of;
use check_selectors::Reached;
use check_selectors::check_values::{Done, Run, Sum, longer, sort_of, step, truth};
use check_state::{Typed, of_kind};
use held_trees::{LetGo, both, pushed};
use mesa_base::{List, OutOfMemory, Place};
use mesa_types::{Exprs, TypedExpr};
use std::alloc::Global;
use syntax_trees::syntax;

/// Where suffixes have led: the place of the last name, and what was reached.
pub struct At {
    pub last: Place,
    pub reached: Reached,
}

impl LetGo for At {
    fn let_go(self) {
        let At { last: _, reached } = self;
        reached.let_go();
    }
}

/// What a run has by its first operator.
#[derive(Clone, Copy)]
pub enum Level {
    Bare,
    Sums,
    Alls,
    Somes,
}

/// The level of a run.
#[tactic(auto, using(crate::proofs::OperationLaws::level_first))]
pub fn level_of(all: &[syntax::Operation]) -> Level
    ensures { view.level result ≡ spec.level_of (tree.operations all.now) }
{
    match all {
        [] => Level::Bare,
        [one, ..] => match one.operator {
            syntax::Operator::Or => Level::Somes,
            syntax::Operator::And => Level::Alls,
            syntax::Operator::Add
            | syntax::Operator::Subtract
            | syntax::Operator::Multiply
            | syntax::Operator::Divide
            | syntax::Operator::Modulo => Level::Sums,
        },
    }
}

/// A run whose first operand this is, which begins at `start`.
pub fn begun(start: Place, first: Typed) -> Run
    ensures { view.run result ≡ runs.begun start (typed first) }
{
    let Typed {
        value,
        kind,
        literal,
        gave: _,
    } = first;
    Run {
        start,
        done: Sum::Begun(value),
        kind,
        literal,
    }
}

/// The run with one operator more, whose right operand is `right` and begins at `other`.
pub fn behind(
    alloc: Global,
    operator: syntax::Operator,
    place: Place,
    run: Run,
    other: Place,
    right: Typed,
) -> Result<Run, CheckFault>
    ensures { GivesOnly view.run (runs.behind operator place (view.run run) other (typed right)) result }
{
    let start = run.start;
    let Done { done, kind } = step(alloc, operator, place, run, other, right)?;
    Ok(Run {
        start,
        done,
        kind,
        literal: false,
    })
}

/// How many words the literal of one word among the operands of the next operator counts more.
pub fn longer_by(run: &Run, right: &Typed) -> u32
    ensures { result ≡ runs.longer_by (view.run run.now) (typed right.now) }
{
    longer(
        sort_of(&run.kind),
        run.literal,
        sort_of(&right.kind),
        right.literal,
    )
}

/// The whole run.
pub fn ended(alloc: Global, run: Run) -> Result<Typed, OutOfMemory>
    ensures { IfOk result (λ made. typed made ≡ runs.ended (view.run run)) }
{
    let Run {
        start: _,
        done,
        kind,
        literal: _,
    } = run;
    let (kind, value) = both(kind, done.closed(alloc))?;
    Ok(of_kind(kind, value))
}

/// A list of this value.
pub fn only(alloc: Global, one: Typed) -> Result<Exprs, OutOfMemory>
    ensures { IfOk result (λ list. list ≡ one.value ∷ []) }
{
    pushed(List::new(alloc), one.into_value())
}

/// AND of these operands.
#[tactic(auto, unfolding(crate::specs::Views::exprs))]
pub fn all_of(operands: Exprs) -> TypedExpr
    ensures { expr result ≡ t.AllOf (view.exprs operands) }
{
    TypedExpr::AllOf(operands)
}

/// OR of these operands.
#[tactic(auto, unfolding(crate::specs::Views::exprs))]
pub fn some_of(operands: Exprs) -> TypedExpr
    ensures { expr result ≡ t.SomeOf (view.exprs operands) }
{
    TypedExpr::SomeOf(operands)
}

fn truth_word(holds: bool) -> TypedExpr
    ensures { expr result ≡ t.Number (operators.truth holds) }
{
    TypedExpr::Number(word_of(holds))
}

/// TRUE or FALSE.
pub fn truth_literal(holds: bool) -> Typed
    ensures { typed result ≡ spec.truth (t.Number (operators.truth holds)) }
{
    truth(truth_word(holds))
}
