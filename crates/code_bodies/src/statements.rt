//! Blocks of statements.
ghost use Rattle.std.specs.Prelude.{◌≡◌, ◌+◌, ◌≤◌, map, IfOk, OnOk};
ghost use Rattle.mesa_types.specs.Counts.{hidden, hidden_stmts};
ghost use Rattle.mesa_types.specs.Plain.{stmt, stmts};
ghost use Rattle.code_blocks.specs.Translation as spec;
ghost use Rattle.code_trees.specs.Excess.{excess};
ghost use Rattle.code_trees.specs.Plain.{plain};
ghost use Rattle.code_trees.specs.Routines.{coded};

use crate::cases::cases;
use crate::expressions::{bounds, jump, path, value, values};
use crate::loops::{a_loop, exits};
use crate::phrases::caught_by;
use crate::rooms::{
    room_for_bounds, room_for_cases, room_for_exits, room_for_jump, room_for_path, room_for_phrase,
    room_for_statement, room_for_statements, room_for_targets, room_for_value, room_for_values,
};
use crate::targets::targets;
use code_counts::value_words;
use code_trees::case_forms::{branches, dropped, held_words, is_null, selected};
use code_trees::counter::Counter;
use code_trees::exit_forms::enclosed;
use code_trees::forms::followed;
use code_trees::loop_forms::started;
use code_trees::making::{closed, does, ends, goes, joined, no_row};
use code_trees::statement_forms::{
    assigned, declared, declared_as, given, goes_out, point_of, rejected, resumed, returned,
};
use code_trees::{Mark, Part, Point, Routine};
use held_trees::both;
use mesa_base::{List, OutOfMemory};
use mesa_types::TypedStmt;
use std::alloc::Global;

/// The block of a statement; its hidden words lie from the next free slot on. The one refusal is want of memory. The recursion
/// is as deep as the tree.
#[cycle(blocks)]
#[tactic(auto, unfolding(mesa_types::specs::Counts::hidden, code_trees::specs::Excess::excess), using(code_trees::proofs::StatementLaws::select_hidden, code_trees::proofs::LoopLaws::block_hidden))]
pub fn block(
    alloc: Global,
    routine: &Routine,
    next: &mut u16,
    s: &TypedStmt,
) -> Result<Part, OutOfMemory>
    requires room { next.old + hidden (stmt s.now) ≤ 65535 }
    requires fits { excess (spec.block (coded routine.now) next.old (stmt s.now)) ≡ 0 }
    ensures block { IfOk result (λ made. plain made.block ≡ spec.block (coded routine.now) next.old (stmt s.now)) }
    ensures next { OnOk result (next.new ≡ next.old + hidden (stmt s.now)) }
{
    match s {
        TypedStmt::Null => Ok(does(List::new(alloc))),
        TypedStmt::Marked(number, inner) => {
            let made = block(alloc, routine, next, inner.get())?;
            ends(alloc, Mark::Statement(*number), made)
        }
        TypedStmt::Declare(homes, kind) => declared(alloc, routine, homes.as_slice(), kind),
        TypedStmt::DeclareAs(homes, kind, e) => {
            room_for_value(routine, *next, e);
            let set = value(alloc, routine, next, e)?;
            declared_as(alloc, routine, homes.as_slice(), kind, set)
        }
        TypedStmt::Assign(home, suffixes, e) => {
            let words = value_words(e)?;
            let suffixes = suffixes.as_slice();
            room_for_path(routine, *next, suffixes);
            let way = path(alloc, routine, next, suffixes)?;
            room_for_value(routine, *next, e);
            let (kept, set) = both(way, value(alloc, routine, next, e))?;
            assigned(alloc, routine, *home, suffixes, kept, set, words)
        }
        TypedStmt::Extract(_, ts, e) => {
            let words = value_words(e)?;
            let ts = ts.as_slice();
            room_for_targets(routine, *next, words, ts);
            let taken = targets(alloc, routine, next, words, ts)?;
            room_for_value(routine, *next, e);
            let (kept, from) = both(taken, value(alloc, routine, next, e))?;
            followed(alloc, from, kept)
        }
        TypedStmt::Perform(e) => {
            let words = value_words(e)?;
            room_for_value(routine, *next, e);
            let made = value(alloc, routine, next, e)?;
            dropped(alloc, made, words)
        }
        TypedStmt::If(e, then, otherwise) => {
            room_for_jump(routine, *next, e, false, 0);
            let test = jump(alloc, routine, next, e, false, 0)?;
            let (held, first) = both(test, block(alloc, routine, next, then.get()))?;
            let otherwise = otherwise.get();
            let (parts, second) = both((held, first), block(alloc, routine, next, otherwise))?;
            let (held, first) = parts;
            branches(alloc, held, first, !is_null(otherwise), second)
        }
        TypedStmt::Select(e, cs, otherwise) | TypedStmt::SelectLong(e, cs, otherwise) => {
            let slot = *next;
            let words_held = held_words(s);
            *next += words_held;
            let words = value_words(e)?;
            room_for_value(routine, *next, e);
            let selector = value(alloc, routine, next, e)?;
            let otherwise = otherwise.get();
            let passes = !is_null(otherwise);
            let rest = cs.as_slice();
            room_for_cases(routine, *next, slot, passes, rest);
            let (kept, row) = both(selector, cases(alloc, routine, next, slot, passes, rest))?;
            room_for_statement(routine, *next, otherwise);
            let (parts, last) = both((kept, row), block(alloc, routine, next, otherwise))?;
            let (kept, row) = parts;
            selected(
                alloc,
                slot,
                words_held,
                words,
                kept,
                cs.is_empty(),
                row,
                last,
            )
        }
        TypedStmt::Block(catching, ss, es) => {
            let catching = catching.get();
            room_for_phrase(routine, *next, catching);
            let arms = caught_by(alloc, routine, next, catching)?;
            let ss = ss.as_slice();
            room_for_statements(routine, *next, ss);
            let (kept, made) = both(arms, blocks(alloc, routine, next, ss))?;
            let es = es.as_slice();
            room_for_exits(routine, *next, es);
            let (parts, held) = both((kept, made), exits(alloc, routine, next, es))?;
            let (kept, made) = parts;
            enclosed(alloc, kept, made, es, held)
        }
        TypedStmt::Repeat(l) => a_loop(alloc, routine, next, Counter::Uncounted, l.get()),
        TypedStmt::For(number, down, base, range, l) => {
            let slot = *next;
            *next += 3;
            let range = range.get();
            let counter = Counter::CountedIn(slot, *number, *down);
            room_for_bounds(routine, *next, range);
            let limits = bounds(alloc, routine, next, range)?;
            let (kept, made) = both(limits, a_loop(alloc, routine, next, counter, l.get()))?;
            started(alloc, slot, *base, range, kept, made)
        }
        TypedStmt::Jump(arms, goal) => goes_out(*arms, point_of(*goal)),
        TypedStmt::ReturnWith(arms, first, places, es) => {
            let values_of = es.as_slice();
            room_for_values(routine, *next, values_of);
            let (made, sizes) = values(alloc, routine, next, values_of)?;
            let (kept, order) = both(made, given(alloc, places.as_slice(), sizes.as_slice()))?;
            let (code, words) = order;
            returned(alloc, routine, *arms, *first, kept, code, words)
        }
        TypedStmt::Resume(places, es) => {
            let told = es.as_slice();
            room_for_values(routine, *next, told);
            let (made, sizes) = values(alloc, routine, next, told)?;
            let (kept, order) = both(made, given(alloc, places.as_slice(), sizes.as_slice()))?;
            let (code, words) = order;
            resumed(alloc, kept, code, words)
        }
        TypedStmt::Reject => rejected(alloc),
        TypedStmt::Retry(statement) => Ok(goes(1, Point::Start(*statement))),
        TypedStmt::Continue(statement) => Ok(goes(1, Point::After(*statement))),
    }
}

/// Statements one behind the other.
#[cycle(blocks)]
#[tactic(auto, unfolding(mesa_types::specs::Counts::hidden, code_trees::specs::Excess::excess))]
pub(crate) fn blocks(
    alloc: Global,
    routine: &Routine,
    next: &mut u16,
    ss: &[TypedStmt],
) -> Result<Part, OutOfMemory>
    requires room { next.old + hidden_stmts (stmts (map stmt ss.now)) ≤ 65535 }
    requires fits { excess (spec.blocks (coded routine.now) next.old (stmts (map stmt ss.now))) ≡ 0 }
    ensures block { IfOk result (λ made. plain made.block ≡ spec.blocks (coded routine.now) next.old (stmts (map stmt ss.now))) }
    ensures next { OnOk result (next.new ≡ next.old + hidden_stmts (stmts (map stmt ss.now))) }
{
    let mut row = no_row(alloc);
    for s in ss {
        let (held, made) = both(row, block(alloc, routine, next, s))?;
        row = joined(held, made)?;
    }
    closed(alloc, row, does(List::new(alloc)))
}
