//! Blocks of cases and their tests.
ghost use Rattle.std.specs.Prelude.{◌≡◌, ◌+◌, ◌≤◌, drop, map, IfOk, OnOk};
ghost use Rattle.mesa_base.specs.Chain.{chain};
ghost use Rattle.mesa_types.specs.Counts.{hidden, hidden_cases, hidden_tests};
ghost use Rattle.mesa_types.specs.Plain.{case, stmt, test};
ghost use Rattle.mesa_types.specs.Typed as t;
ghost use Rattle.code_blocks.specs.Translation as spec;
ghost use Rattle.code_trees.specs.Excess.{excess};
ghost use Rattle.code_trees.specs.Forms.{case_blocks, case_of, goes_on, test_of};
ghost use Rattle.code_trees.specs.Plain.{plain, plain_blocks};
ghost use Rattle.code_trees.specs.Routines.{coded};
ghost use Rattle.code_trees.specs.Rows.{excess_among, sizes_in};

use crate::expressions::{bounds, value};
use crate::rooms::{room_for_bounds, room_for_test, room_for_tests, room_for_value};
use crate::statements::block;
use code_trees::case_forms::{long_related, long_within, related, tested, within};
use code_trees::exit_forms::past_if;
use code_trees::making::{closed, joined, no_row};
use code_trees::{Part, Routine, Row};
use held_trees::both;
use mesa_base::OutOfMemory;
use mesa_types::{Case, Test};
use std::alloc::Global;

/// The cases that have tests, one by one; the last of them jumps past the statement behind it where it is to.
#[cycle(blocks)]
#[tactic(auto, unfolding(mesa_types::specs::Counts::hidden, code_trees::specs::Forms::case_blocks, code_trees::specs::Rows::excess_among))]
pub(crate) fn cases(
    alloc: Global,
    routine: &Routine,
    next: &mut u16,
    slot: u16,
    passes: bool,
    cs: &[Case],
) -> Result<Row, OutOfMemory>
    requires room { next.old + hidden_cases (chain (map case cs.now) (t.Otherwise t.Null)) ≤ 65535 }
    requires fits { excess_among (case_blocks (coded routine.now) next.old slot passes (chain (map case cs.now) (t.Otherwise t.Null))) ≡ 0 }
    requires small { sizes_in (case_blocks (coded routine.now) next.old slot passes (chain (map case cs.now) (t.Otherwise t.Null))) ≤ 4294967295 }
    ensures blocks { IfOk result (λ row. plain_blocks row.blocks ≡ case_blocks (coded routine.now) next.old slot passes (chain (map case cs.now) (t.Otherwise t.Null))) }
    ensures next { OnOk result (next.new ≡ next.old + hidden_cases (chain (map case cs.now) (t.Otherwise t.Null))) }
{
    let mut row = no_row(alloc);
    let mut at = 0;
    for case in cs {
        at += 1;
        let jumps = jumps_past(cs, at, passes);
        let (held, made) = both(row, a_case(alloc, routine, next, slot, jumps, case))?;
        row = joined(held, made)?;
    }
    Ok(row)
}

/// Whether the case before a place jumps past what stands behind it: where there are more cases it does.
#[tactic(auto, using(crate::proofs::ListWalks::cases_last, crate::proofs::ListWalks::cases_more))]
fn jumps_past(cs: &[Case], at: usize, passes: bool) -> bool
    ensures { result ≡ goes_on passes (chain (map case (drop at cs.now)) (t.Otherwise t.Null)) }
{
    if at < cs.len() { true } else { passes }
}

/// A case: its tests, its statement, and a jump past those behind it where it is to jump.
#[cycle(blocks)]
#[tactic(auto, unfolding(mesa_types::specs::Counts::hidden, code_trees::specs::Excess::excess))]
pub(crate) fn a_case(
    alloc: Global,
    routine: &Routine,
    next: &mut u16,
    slot: u16,
    jumps: bool,
    of: &Case,
) -> Result<Part, OutOfMemory>
    requires room { next.old + (hidden_tests (chain (map test of.now.tests) t.NoTests) + hidden (stmt of.now.body)) ≤ 65535 }
    requires fits { excess (case_of (coded routine.now) next.old slot (chain (map test of.now.tests) t.NoTests) (stmt of.now.body) jumps) ≡ 0 }
    ensures block { IfOk result (λ made. plain made.block ≡ case_of (coded routine.now) next.old slot (chain (map test of.now.tests) t.NoTests) (stmt of.now.body) jumps) }
    ensures next { OnOk result (next.new ≡ next.old + (hidden_tests (chain (map test of.now.tests) t.NoTests) + hidden (stmt of.now.body))) }
{
    let ts = of.tests.as_slice();
    room_for_tests(routine, *next, slot, ts);
    let of_tests = tests(alloc, routine, next, slot, ts)?;
    let (kept, statement) = both(of_tests, block(alloc, routine, next, &of.body))?;
    tested(alloc, kept, statement, jumps)
}

/// The tests of a case: one that fits leads to the end of part 0; where none does, control goes to that of part 1.
#[cycle(blocks)]
pub(crate) fn tests(
    alloc: Global,
    routine: &Routine,
    next: &mut u16,
    slot: u16,
    ts: &[Test],
) -> Result<Part, OutOfMemory>
    requires room { next.old + hidden_tests (chain (map test ts.now) t.NoTests) ≤ 65535 }
    requires fits { excess (spec.tests (coded routine.now) next.old slot (chain (map test ts.now) t.NoTests)) ≡ 0 }
    ensures block { IfOk result (λ made. plain made.block ≡ spec.tests (coded routine.now) next.old slot (chain (map test ts.now) t.NoTests)) }
    ensures next { OnOk result (next.new ≡ next.old + hidden_tests (chain (map test ts.now) t.NoTests)) }
{
    let mut row = no_row(alloc);
    let mut left = ts.len();
    for of in ts {
        left -= 1;
        let is_last = left == 0;
        room_for_test(routine, *next, slot, is_last, of);
        let (held, made) = both(row, a_test(alloc, routine, next, slot, is_last, of))?;
        row = joined(held, made)?;
    }
    closed(alloc, row, past_if(alloc, ts.is_empty(), 1))
}

/// A test of the selector, which lies in its slot; the last one leads past the case where it fails.
#[cycle(blocks)]
pub(crate) fn a_test(
    alloc: Global,
    routine: &Routine,
    next: &mut u16,
    slot: u16,
    last: bool,
    of: &Test,
) -> Result<Part, OutOfMemory>
    requires room { next.old + hidden_tests (test of.now t.NoTests) ≤ 65535 }
    requires fits { excess (test_of (coded routine.now) next.old slot last (test of.now t.NoTests)) ≡ 0 }
    ensures block { IfOk result (λ made. plain made.block ≡ test_of (coded routine.now) next.old slot last (test of.now t.NoTests)) }
    ensures next { OnOk result (next.new ≡ next.old + hidden_tests (test of.now t.NoTests)) }
{
    match of {
        Test::IfRelated(range, base, relation, e) => {
            room_for_value(routine, *next, e);
            let right = value(alloc, routine, next, e)?;
            related(alloc, slot, *range, *base, *relation, last, right)
        }
        Test::IfWithin(negated, bases, range) => {
            room_for_bounds(routine, *next, range);
            let ends = bounds(alloc, routine, next, range)?;
            within(alloc, routine, slot, *negated, *bases, range, last, ends)
        }
        Test::IfRelatedLong(how, base, relation, e) => {
            room_for_value(routine, *next, e);
            let right = value(alloc, routine, next, e)?;
            long_related(alloc, slot, *how, *base, *relation, last, right)
        }
        Test::IfWithinLong(negated, how, bases, range) => {
            room_for_bounds(routine, *next, range);
            let ends = bounds(alloc, routine, next, range)?;
            long_within(
                alloc, routine, slot, *negated, *how, *bases, range, last, ends,
            )
        }
    }
}
