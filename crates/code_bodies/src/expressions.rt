//! Blocks of expressions, by value and as conditions.
ghost use Rattle.std.specs.Prelude.{◌≡◌, ◌+◌, ◌≤◌, map, IfOk, OnOk};
ghost use Rattle.mesa_base.specs.Chain.{chain};
ghost use Rattle.mesa_types.specs.Counts.{hidden_expr, hidden_exprs, hidden_interval, hidden_operations, hidden_suffixes};
ghost use Rattle.mesa_types.specs.Plain.{expr, exprs, interval, operation, suffix};
ghost use Rattle.mesa_types.specs.Typed as t;
ghost use Rattle.code_rules.specs.Slots as slots;
ghost use Rattle.code_blocks.specs.Translation as spec;
ghost use Rattle.code_trees.specs.Excess.{excess};
ghost use Rattle.code_trees.specs.Plain.{plain};
ghost use Rattle.code_trees.specs.Routines.{coded};

use crate::phrases::caught_by;
use crate::rooms::{room_for_jump, room_for_path, room_for_phrase, room_for_value};
use crate::turns::{long_operated, operated, read};
use code_counts::value_words;
use code_forms::Instruction;
use code_trees::calls::{called, constructed};
use code_trees::conditions::{answer, turned};
use code_trees::forms::{
    checked, converted, field_of, followed, instructed, leapt, leapt_where_long_related,
    leapt_where_related, long_lying_within, long_number, long_related, lying_within, related,
    single, two_instructed,
};
use code_trees::link_code::{call_code, raise_code};
use code_trees::making::{closed, does, joined, no_row, valued};
use code_trees::suffix_forms::indexed;
use code_trees::{Part, Routine, Values};
use held_trees::both;
use mesa_base::{List, OutOfMemory};
use mesa_types::{Interval, Operation, Suffix, TypedExpr};
use std::alloc::Global;

/// The block of a value; its hidden words lie from the next free slot on.
#[cycle(blocks)]
#[tactic(auto, unfolding(mesa_types::specs::Counts::hidden_expr, code_trees::specs::Excess::excess, code_trees::specs::Excess::excess_in, code_trees::specs::Excess::excess_of))]
pub(crate) fn value(
    alloc: Global,
    routine: &Routine,
    next: &mut u16,
    e: &TypedExpr,
) -> Result<Part, OutOfMemory>
    requires room { next.old + hidden_expr (expr e.now) ≤ 65535 }
    requires fits { excess ((spec.forms (coded routine.now) next.old (expr e.now)).value) ≡ 0 }
    ensures block { IfOk result (λ made. plain made.block ≡ (spec.forms (coded routine.now) next.old (expr e.now)).value) }
    ensures next { OnOk result (next.new ≡ next.old + hidden_expr (expr e.now)) }
{
    match e {
        TypedExpr::Number(word) => single(alloc, Instruction::Lit { word: *word }),
        TypedExpr::LongNumber(number) => long_number(alloc, *number),
        TypedExpr::Literal(literal) => single(
            alloc,
            Instruction::Str {
                literal: *literal + 1,
            },
        ),
        TypedExpr::Variable(home, suffixes, words) => {
            let suffixes = suffixes.as_slice();
            room_for_path(routine, *next, suffixes);
            let way = path(alloc, routine, next, suffixes)?;
            read(alloc, routine, *home, suffixes, *words, way)
        }
        TypedExpr::FieldOf(of, parts) => {
            let words = value_words(of.get())?;
            let of = value(alloc, routine, next, of.get())?;
            let (of, _) = field_of(alloc, of, words, parts.as_slice())?;
            Ok(of)
        }
        TypedExpr::LengthOf(of) => {
            let of = value(alloc, routine, next, of.get())?;
            instructed(alloc, of, Instruction::StrLen)
        }
        TypedExpr::ByteOf(of, index) => {
            let of = value(alloc, routine, next, of.get())?;
            let (of, index) = both(of, value(alloc, routine, next, index.get()))?;
            two_instructed(alloc, of, index, Instruction::StrAt)
        }
        TypedExpr::Checked(range, of) => {
            let of = value(alloc, routine, next, of.get())?;
            checked(alloc, of, *range)
        }
        TypedExpr::Converted(how, of) => {
            let of = value(alloc, routine, next, of.get())?;
            converted(alloc, of, *how)
        }
        TypedExpr::Operate(first, rest) => {
            let first = value(alloc, routine, next, first.get())?;
            let (first, rest) = both(first, operations(alloc, routine, next, rest.as_slice()))?;
            followed(alloc, first, rest)
        }
        TypedExpr::OperateLong(first, rest) => {
            let first = value(alloc, routine, next, first.get())?;
            let (first, rest) = both(
                first,
                long_operations(alloc, routine, next, rest.as_slice()),
            )?;
            followed(alloc, first, rest)
        }
        TypedExpr::Negate(of) => {
            let of = value(alloc, routine, next, of.get())?;
            instructed(alloc, of, Instruction::Neg)
        }
        TypedExpr::NegateLong(of) => {
            let of = value(alloc, routine, next, of.get())?;
            instructed(alloc, of, Instruction::NegD)
        }
        TypedExpr::Relate(base, how, left, right) => {
            let left = value(alloc, routine, next, left.get())?;
            let (left, right) = both(left, value(alloc, routine, next, right.get()))?;
            related(alloc, left, right, *base, *how)
        }
        TypedExpr::RelateLong(base, how, left, right) => {
            let left = value(alloc, routine, next, left.get())?;
            let (left, right) = both(left, value(alloc, routine, next, right.get()))?;
            long_related(alloc, left, right, *base, *how)
        }
        TypedExpr::Within(bases, of, range) => {
            let range = range.get();
            let of = value(alloc, routine, next, of.get())?;
            let (of, ends) = both(of, bounds(alloc, routine, next, range))?;
            let (first, last) = (range.first_is_open, range.last_is_open);
            lying_within(alloc, routine, of, ends, *bases, first, last)
        }
        TypedExpr::WithinLong(bases, of, range) => {
            let range = range.get();
            let of = value(alloc, routine, next, of.get())?;
            let (of, ends) = both(of, bounds(alloc, routine, next, range))?;
            let (first, last) = (range.first_is_open, range.last_is_open);
            long_lying_within(alloc, routine, of, ends, *bases, first, last)
        }
        TypedExpr::Not(of) => {
            let of = value(alloc, routine, next, of.get())?;
            instructed(alloc, of, Instruction::Not)
        }
        TypedExpr::AllOf(es) => {
            let jumps = operands(alloc, routine, next, es.as_slice(), false, 0)?;
            answer(alloc, jumps, 1, 0)
        }
        TypedExpr::SomeOf(es) => {
            let jumps = operands(alloc, routine, next, es.as_slice(), true, 0)?;
            answer(alloc, jumps, 0, 1)
        }
        TypedExpr::Construct(places, es) => {
            let (of, sizes) = values(alloc, routine, next, es.as_slice())?;
            let (of, _) = constructed(alloc, of, places.as_slice(), sizes.as_slice())?;
            Ok(of)
        }
        TypedExpr::Call(callee, places, es, words, catching) => {
            let call = call_code(&routine.links, *callee)?;
            let taken = es.as_slice();
            let (of, sizes) = values(alloc, routine, next, taken)?;
            let arms_of = catching.get();
            room_for_phrase(routine, *next, arms_of);
            let (of, arms) = both(of, caught_by(alloc, routine, next, arms_of))?;
            let order = places.as_slice();
            let lengths = sizes.as_slice();
            called(alloc, of, order, lengths, call, *words, arms)
        }
        TypedExpr::Raise(raised, places, es, words, catching) => {
            let raise = raise_code(&routine.links, *raised)?;
            let told = es.as_slice();
            let (of, sizes) = values(alloc, routine, next, told)?;
            let catches = catching.get();
            room_for_phrase(routine, *next, catches);
            let (of, arms) = both(of, caught_by(alloc, routine, next, catches))?;
            let ranks = places.as_slice();
            let widths = sizes.as_slice();
            called(alloc, of, ranks, widths, raise, *words, arms)
        }
    }
}

/// A condition: out to the end of a part where it is true, or where it is not.
#[cycle(blocks)]
#[tactic(auto, unfolding(mesa_types::specs::Counts::hidden_expr, code_trees::specs::Excess::excess, code_trees::specs::Excess::excess_in, code_trees::specs::Excess::excess_of))]
pub(crate) fn jump(
    alloc: Global,
    routine: &Routine,
    next: &mut u16,
    e: &TypedExpr,
    sense: bool,
    part: u32,
) -> Result<Part, OutOfMemory>
    requires room { next.old + hidden_expr (expr e.now) ≤ 65535 }
    requires fits { excess ((spec.forms (coded routine.now) next.old (expr e.now)).jump sense part) ≡ 0 }
    ensures block { IfOk result (λ made. plain made.block ≡ (spec.forms (coded routine.now) next.old (expr e.now)).jump sense part) }
    ensures next { OnOk result (next.new ≡ next.old + hidden_expr (expr e.now)) }
{
    match e {
        TypedExpr::Not(of) => jump(alloc, routine, next, of.get(), !sense, part),
        TypedExpr::Relate(base, how, left, right) => {
            let left = value(alloc, routine, next, left.get())?;
            let (left, right) = both(left, value(alloc, routine, next, right.get()))?;
            leapt_where_related(alloc, left, right, *base, *how, sense, part)
        }
        TypedExpr::RelateLong(base, how, left, right) => {
            let left = value(alloc, routine, next, left.get())?;
            let (left, right) = both(left, value(alloc, routine, next, right.get()))?;
            leapt_where_long_related(alloc, left, right, *base, *how, sense, part)
        }
        TypedExpr::AllOf(es) => passed(alloc, routine, next, es.as_slice(), sense, false, part),
        TypedExpr::SomeOf(es) => passed(alloc, routine, next, es.as_slice(), !sense, true, part),
        TypedExpr::Number(_)
        | TypedExpr::LongNumber(_)
        | TypedExpr::Literal(_)
        | TypedExpr::Variable(_, _, _)
        | TypedExpr::FieldOf(_, _)
        | TypedExpr::LengthOf(_)
        | TypedExpr::ByteOf(_, _)
        | TypedExpr::Checked(_, _)
        | TypedExpr::Converted(_, _)
        | TypedExpr::Operate(_, _)
        | TypedExpr::OperateLong(_, _)
        | TypedExpr::Negate(_)
        | TypedExpr::NegateLong(_)
        | TypedExpr::Within(_, _, _)
        | TypedExpr::WithinLong(_, _, _)
        | TypedExpr::Construct(_, _)
        | TypedExpr::Call(_, _, _, _, _)
        | TypedExpr::Raise(_, _, _, _, _) => {
            let of = value(alloc, routine, next, e)?;
            leapt(alloc, of, sense, part)
        }
    }
}

/// The jumps of operands; turned, they lead past a jump out to the end of a part.
#[cycle(blocks)]
#[tactic(auto, unfolding(mesa_types::specs::Counts::hidden_expr, code_trees::specs::Excess::excess, code_trees::specs::Excess::excess_in, code_trees::specs::Excess::excess_of))]
fn passed(
    alloc: Global,
    routine: &Routine,
    next: &mut u16,
    es: &[TypedExpr],
    is_turned: bool,
    sense: bool,
    part: u32,
) -> Result<Part, OutOfMemory>
    requires room { next.old + hidden_exprs (exprs (map expr es.now)) ≤ 65535 }
    requires fits { excess (spec.turned is_turned (spec.operands (coded routine.now) next.old (exprs (map expr es.now)) sense) part) ≡ 0 }
    ensures block { IfOk result (λ made. plain made.block ≡ spec.turned is_turned (spec.operands (coded routine.now) next.old (exprs (map expr es.now)) sense) part) }
    ensures next { OnOk result (next.new ≡ next.old + hidden_exprs (exprs (map expr es.now))) }
{
    if is_turned {
        let jumps = operands(alloc, routine, next, es, sense, 0)?;
        turned(alloc, jumps, part)
    } else {
        operands(alloc, routine, next, es, sense, part)
    }
}

/// Values one behind the other, with the words of each.
#[cycle(blocks)]
#[tactic(auto, unfolding(mesa_types::specs::Counts::hidden_expr))]
pub(crate) fn values(
    alloc: Global,
    routine: &Routine,
    next: &mut u16,
    es: &[TypedExpr],
) -> Result<(Part, List<u64>), OutOfMemory>
    requires room { next.old + hidden_exprs (exprs (map expr es.now)) ≤ 65535 }
    requires fits { excess (spec.values (coded routine.now) next.old (exprs (map expr es.now))) ≡ 0 }
    ensures block { IfOk result (λ made. plain made.0.block ≡ spec.values (coded routine.now) next.old (exprs (map expr es.now))) }
    ensures sizes { IfOk result (λ made. made.1 ≡ slots.sizes (exprs (map expr es.now))) }
    ensures next { OnOk result (next.new ≡ next.old + hidden_exprs (exprs (map expr es.now))) }
{
    let row = no_row(alloc);
    let sizes = List::new(alloc);
    let mut made = Values { row, sizes };
    for e in es {
        let (held, words) = both(made, value_words(e))?;
        room_for_value(routine, *next, e);
        let (held, part) = both(held, value(alloc, routine, next, e))?;
        made = valued(held, part, words)?;
    }
    let Values { row, sizes } = made;
    let row = closed(alloc, row, does(List::new(alloc)))?;
    Ok((row, sizes))
}

/// Out to the end of a part from the first operand that is true, or that is not.
#[cycle(blocks)]
#[tactic(auto, unfolding(mesa_types::specs::Counts::hidden_expr))]
pub(crate) fn operands(
    alloc: Global,
    routine: &Routine,
    next: &mut u16,
    es: &[TypedExpr],
    sense: bool,
    part: u32,
) -> Result<Part, OutOfMemory>
    requires room { next.old + hidden_exprs (exprs (map expr es.now)) ≤ 65535 }
    requires fits { excess (spec.operands (coded routine.now) next.old (exprs (map expr es.now)) sense part) ≡ 0 }
    ensures block { IfOk result (λ made. plain made.block ≡ spec.operands (coded routine.now) next.old (exprs (map expr es.now)) sense part) }
    ensures next { OnOk result (next.new ≡ next.old + hidden_exprs (exprs (map expr es.now))) }
{
    let mut row = no_row(alloc);
    for e in es {
        room_for_jump(routine, *next, e, sense, part);
        let (held, part) = both(row, jump(alloc, routine, next, e, sense, part))?;
        row = joined(held, part)?;
    }
    closed(alloc, row, does(List::new(alloc)))
}

/// The operators of a run behind its first operand.
#[cycle(blocks)]
#[tactic(auto, unfolding(mesa_types::specs::Counts::hidden_expr))]
pub(crate) fn operations(
    alloc: Global,
    routine: &Routine,
    next: &mut u16,
    rest: &[Operation],
) -> Result<Part, OutOfMemory>
    requires room { next.old + hidden_operations (chain (map operation rest.now) t.NoOperation) ≤ 65535 }
    requires fits { excess (spec.operations (coded routine.now) next.old (chain (map operation rest.now) t.NoOperation)) ≡ 0 }
    ensures block { IfOk result (λ made. plain made.block ≡ spec.operations (coded routine.now) next.old (chain (map operation rest.now) t.NoOperation)) }
    ensures next { OnOk result (next.new ≡ next.old + hidden_operations (chain (map operation rest.now) t.NoOperation)) }
{
    let mut row = no_row(alloc);
    for step in rest {
        room_for_value(routine, *next, &step.right);
        let (held, right) = both(row, value(alloc, routine, next, &step.right))?;
        row = operated(alloc, routine, held, step.check, step.operator, right)?;
    }
    closed(alloc, row, does(List::new(alloc)))
}

/// The operators of a run over LONG numbers behind its first operand.
#[cycle(blocks)]
#[tactic(auto, unfolding(mesa_types::specs::Counts::hidden_expr))]
pub(crate) fn long_operations(
    alloc: Global,
    routine: &Routine,
    next: &mut u16,
    rest: &[Operation],
) -> Result<Part, OutOfMemory>
    requires room { next.old + hidden_operations (chain (map operation rest.now) t.NoOperation) ≤ 65535 }
    requires fits { excess (spec.long_operations (coded routine.now) next.old (chain (map operation rest.now) t.NoOperation)) ≡ 0 }
    ensures block { IfOk result (λ made. plain made.block ≡ spec.long_operations (coded routine.now) next.old (chain (map operation rest.now) t.NoOperation)) }
    ensures next { OnOk result (next.new ≡ next.old + hidden_operations (chain (map operation rest.now) t.NoOperation)) }
{
    let mut row = no_row(alloc);
    for step in rest {
        room_for_value(routine, *next, &step.right);
        let (held, right) = both(row, value(alloc, routine, next, &step.right))?;
        row = long_operated(alloc, held, step.operator, right)?;
    }
    closed(alloc, row, does(List::new(alloc)))
}

/// Both bounds of an interval.
#[cycle(blocks)]
#[tactic(auto, unfolding(mesa_types::specs::Counts::hidden_expr, code_trees::specs::Excess::excess, code_trees::specs::Excess::excess_in, code_trees::specs::Excess::excess_of))]
pub(crate) fn bounds(
    alloc: Global,
    routine: &Routine,
    next: &mut u16,
    range: &Interval,
) -> Result<Part, OutOfMemory>
    requires room { next.old + hidden_interval (interval range.now) ≤ 65535 }
    requires fits { excess (spec.bounds (coded routine.now) next.old (interval range.now)) ≡ 0 }
    ensures block { IfOk result (λ made. plain made.block ≡ spec.bounds (coded routine.now) next.old (interval range.now)) }
    ensures next { OnOk result (next.new ≡ next.old + hidden_interval (interval range.now)) }
{
    let first = value(alloc, routine, next, &range.first)?;
    let (first, last) = both(first, value(alloc, routine, next, &range.last))?;
    followed(alloc, first, last)
}

/// The indices among suffixes, each added to the offset on the operand stack.
#[cycle(blocks)]
#[tactic(auto, unfolding(mesa_types::specs::Counts::hidden_expr))]
pub(crate) fn path(
    alloc: Global,
    routine: &Routine,
    next: &mut u16,
    suffixes: &[Suffix],
) -> Result<Part, OutOfMemory>
    requires room { next.old + hidden_suffixes (chain (map suffix suffixes.now) t.NoSuffix) ≤ 65535 }
    requires fits { excess (spec.path (coded routine.now) next.old (chain (map suffix suffixes.now) t.NoSuffix)) ≡ 0 }
    ensures block { IfOk result (λ made. plain made.block ≡ spec.path (coded routine.now) next.old (chain (map suffix suffixes.now) t.NoSuffix)) }
    ensures next { OnOk result (next.new ≡ next.old + hidden_suffixes (chain (map suffix suffixes.now) t.NoSuffix)) }
{
    let mut row = no_row(alloc);
    for suffix in suffixes {
        match suffix {
            Suffix::Field(_, _) => {}
            Suffix::Index(extent, e) => {
                room_for_value(routine, *next, e);
                let (held, index) = both(row, value(alloc, routine, next, e))?;
                row = indexed(alloc, held, index, *extent)?;
            }
        }
    }
    closed(alloc, row, does(List::new(alloc)))
}
