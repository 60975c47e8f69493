//! Runs of sums or products, over words and over LONG numbers.
ghost use Rattle.std.specs.Prelude.{◌≡◌, IfOk};
ghost use Rattle.check_rules.specs.mesa_types.specs.Plain.{expr};
ghost use Rattle.check_rules.specs.mesa_types.specs.Typed as t;
ghost use Rattle.check_rules.specs.interface_records.specs.PlainTypes.{plain};
ghost use Rattle.check_rules.specs.Parts.{and_operation};
ghost use Rattle.check_rules.specs.Typed.{Every};
ghost use Rattle.check_rules.specs.Operators as operators;
ghost use Rattle.check_rules.specs.Values as spec;
ghost use Rattle.check_state.specs.Gives.{GivesOnly};
ghost use Rattle.check_state.specs.Views.{typed};
ghost use Rattle.check_values.specs.Views as view;

use crate::long_operators::{Fit, LongApplied, beside, fitted};
use crate::operations::{Application, operation};
use crate::operators::{Applied, sort_of};
use crate::targets::checked;
use check_rules::held_trees::{LetGo, both, boxed, pushed};
use check_rules::mesa_base::{List, OutOfMemory, Place};
use check_rules::mesa_types::{
    Conversion, Operation, Operations, Operator, Range, TypeTree, TypedExpr,
};
use check_rules::syntax_trees::syntax;
use check_rules::{Cause, CheckFault};
use check_state::Typed;
use std::alloc::Global;

/// A run of sums or products so far: its first operand, or a run over words or over LONG numbers.
pub enum Sum {
    Begun(TypedExpr),
    InWords(TypedExpr, Operations),
    InLongs(TypedExpr, Operations),
}

impl LetGo for Sum {
    fn let_go(self) {
        match self {
            Sum::Begun(first) => first.let_go(),
            Sum::InWords(first, operations) | Sum::InLongs(first, operations) => {
                first.let_go();
                operations.let_go();
            }
        }
    }
}

impl Sum {
    /// The whole run.
    #[tactic(auto, unfolding(crate::specs::Views::typed_operations))]
    pub fn closed(self, alloc: Global) -> Result<TypedExpr, OutOfMemory>
        ensures { IfOk result (λ made. expr made ≡ spec.closed (view.sum self)) }
    {
        match self {
            Sum::Begun(first) => Ok(first),
            Sum::InWords(first, operations) => {
                let (operations, first) = both(operations, boxed(alloc, first))?;
                Ok(TypedExpr::Operate(first, operations))
            }
            Sum::InLongs(first, operations) => {
                let (operations, first) = both(operations, boxed(alloc, first))?;
                Ok(TypedExpr::OperateLong(first, operations))
            }
        }
    }
}

fn with_operation(
    operations: Operations,
    check: Range,
    operator: Operator,
    right: TypedExpr,
) -> Result<Operations, OutOfMemory>
    ensures { IfOk result (λ longer. view.typed_operations longer ≡ and_operation (view.typed_operations operations) (t.Then check operator (expr right))) }
{
    let made = Operation {
        check,
        operator,
        right,
    };
    let longer = pushed(operations, made)?;
    Ok(longer)
}

/// A run of this one operator.
fn one_operation(
    alloc: Global,
    check: Range,
    operator: Operator,
    right: TypedExpr,
) -> Result<Operations, OutOfMemory>
    ensures { IfOk result (λ one. view.typed_operations one ≡ t.Then check operator (expr right) t.NoOperation) }
{
    let made = Operation {
        check,
        operator,
        right,
    };
    let one = pushed(List::new(alloc), made)?;
    Ok(one)
}

/// The run with an operator over words behind it.
fn then_word(
    alloc: Global,
    done: Sum,
    check: Range,
    operator: Operator,
    right: TypedExpr,
) -> Result<Sum, OutOfMemory>
    ensures { IfOk result (λ more. view.sum more ≡ spec.then_word (view.sum done) (t.Then check operator (expr right))) }
{
    match done {
        Sum::InWords(first, operations) => {
            let longer = with_operation(operations, check, operator, right);
            let (first, operations) = both(first, longer)?;
            Ok(Sum::InWords(first, operations))
        }
        Sum::Begun(first) => {
            let one = one_operation(alloc, check, operator, right);
            let (first, operations) = both(first, one)?;
            Ok(Sum::InWords(first, operations))
        }
        Sum::InLongs(first, operations) => {
            let inner = Sum::InLongs(first, operations);
            let (right, first) = both(right, inner.closed(alloc))?;
            let one = one_operation(alloc, check, operator, right);
            let (first, operations) = both(first, one)?;
            Ok(Sum::InWords(first, operations))
        }
    }
}

/// What stands to the left, made LONG as the first operand of a run over LONG numbers.
fn begun_long(
    alloc: Global,
    done: Sum,
    fit: Fit,
    operator: Operator,
    right: TypedExpr,
) -> Result<Sum, OutOfMemory>
    ensures { IfOk result (λ more. view.sum more ≡ spec.InLongs (operators.fitted (view.fit fit) (spec.closed (view.sum done))) (t.Then Every operator (expr right) t.NoOperation)) }
{
    let (right, first) = both(right, done.closed(alloc))?;
    let (right, first) = both(right, fitted(alloc, fit, first))?;
    let one = one_operation(alloc, Range::Every, operator, right);
    let (first, operations) = both(first, one)?;
    Ok(Sum::InLongs(first, operations))
}

/// The run with an operator over LONG numbers behind it.
fn then_long(
    alloc: Global,
    done: Sum,
    fit: Fit,
    operator: Operator,
    right: TypedExpr,
) -> Result<Sum, OutOfMemory>
    ensures { IfOk result (λ more. view.sum more ≡ spec.then_long (view.sum done) (view.fit fit) (t.Then Every operator (expr right))) }
{
    match done {
        Sum::InLongs(first, operations) => match fit {
            Fit::By(Conversion::Kept) => {
                let longer = with_operation(operations, Range::Every, operator, right);
                let (first, operations) = both(first, longer)?;
                Ok(Sum::InLongs(first, operations))
            }
            Fit::AsLiteral
            | Fit::By(
                Conversion::Widened(_, _) | Conversion::Narrowed(_, _, _) | Conversion::InCommon,
            ) => {
                let inner = Sum::InLongs(first, operations);
                begun_long(alloc, inner, fit, operator, right)
            }
        },
        Sum::Begun(first) => begun_long(alloc, Sum::Begun(first), fit, operator, right),
        Sum::InWords(first, operations) => {
            let inner = Sum::InWords(first, operations);
            begun_long(alloc, inner, fit, operator, right)
        }
    }
}

/// A run with one operator more, and the type of it all.
pub struct Done {
    pub done: Sum,
    pub kind: TypeTree,
}

impl LetGo for Done {
    fn let_go(self) {
        let Done { done, kind } = self;
        done.let_go();
        kind.let_go();
    }
}

fn done_in_words(
    alloc: Global,
    done: Sum,
    right: TypedExpr,
    applied: Applied,
) -> Result<Done, OutOfMemory>
    ensures { IfOk result (λ made. view.done made ≡ spec.done_by (view.sum done) (expr right) (operators.OfWords (view.applied applied))) }
{
    let Applied {
        left,
        operator,
        right: range,
        kind,
    } = applied;
    let ((done, kind), right) = both((done, kind), checked(alloc, range, right))?;
    let (kind, done) = both(kind, then_word(alloc, done, left, operator, right))?;
    Ok(Done { done, kind })
}

fn done_in_longs(
    alloc: Global,
    done: Sum,
    right: TypedExpr,
    applied: LongApplied,
) -> Result<Done, OutOfMemory>
    ensures { IfOk result (λ made. view.done made ≡ spec.done_by (view.sum done) (expr right) (operators.OfLongs (view.long_applied applied))) }
{
    let LongApplied {
        left,
        operator,
        right: fit,
        kind,
    } = applied;
    let ((done, kind), right) = both((done, kind), fitted(alloc, fit, right))?;
    let (kind, done) = both(kind, then_long(alloc, done, left, operator, right))?;
    Ok(Done { done, kind })
}

fn done_by(
    alloc: Global,
    done: Sum,
    right: TypedExpr,
    application: Application,
) -> Result<Done, OutOfMemory>
    ensures { IfOk result (λ made. view.done made ≡ spec.done_by (view.sum done) (expr right) (view.application application)) }
{
    match application {
        Application::OfWords(applied) => done_in_words(alloc, done, right, applied),
        Application::OfLongs(applied) => done_in_longs(alloc, done, right, applied),
    }
}

/// A run of sums or products, where it begins, its type, and whether that is a literal's.
pub struct Run {
    pub start: Place,
    pub done: Sum,
    pub kind: TypeTree,
    pub literal: bool,
}

impl LetGo for Run {
    fn let_go(self) {
        let Run {
            start: _,
            done,
            kind,
            literal: _,
        } = self;
        done.let_go();
        kind.let_go();
    }
}

/// The run with an operator at `place` behind it, whose right side begins at `start`.
#[tactic(auto, unfolding(check_rules::specs::Values::step))]
pub fn step(
    alloc: Global,
    operator: syntax::Operator,
    place: Place,
    run: Run,
    start: Place,
    right: Typed,
) -> Result<Done, CheckFault>
    ensures { GivesOnly view.done (spec.step operator place run.start (view.sum run.done) (plain run.kind) run.literal start (typed right)) result }
{
    let (left, other) = (sort_of(&run.kind), sort_of(&right.kind));
    let applied = operation(operator, left, run.literal, other, right.literal);
    let fault = beside(place, run.start, left, start, other);
    let Run {
        start: _,
        done,
        kind,
        literal: _,
    } = run;
    kind.let_go();
    let value = right.into_value();
    match applied {
        None => {
            (done, value).let_go();
            Err(CheckFault::At(Cause::TypeMismatch, fault))
        }
        Some(applied) => Ok(done_by(alloc, done, value, applied)?),
    }
}
