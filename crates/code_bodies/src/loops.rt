//! Blocks of loops, and of the statements of labels.
ghost use Rattle.std.specs.Prelude.{◌≡◌, ◌+◌, ◌≤◌, length, map, IfOk, OnOk};
ghost use Rattle.mesa_base.specs.Chain.{chain};
ghost use Rattle.mesa_types.specs.Counts.{hidden, hidden_condition, hidden_exits, hidden_loop};
ghost use Rattle.mesa_types.specs.Plain.{condition, exit, loop, stmt};
ghost use Rattle.mesa_types.specs.Typed as t;
ghost use Rattle.code_blocks.specs.Blocks as tree;
ghost use Rattle.code_blocks.specs.Translation as spec;
ghost use Rattle.code_trees.specs.Excess.{excess};
ghost use Rattle.code_trees.specs.Forms.{blocks_of, counter_of, exit_blocks, past_if};
ghost use Rattle.code_trees.specs.Plain.{plain};
ghost use Rattle.code_trees.specs.Routines.{coded};
ghost use Rattle.code_trees.specs.Rows.{excess_among};

use crate::expressions::jump;
use crate::rooms::{
    room_for_condition, room_for_exits, room_for_finish, room_for_jump, room_for_statement,
};
use crate::statements::block;
use code_counts::hidden_words;
use code_trees::counter::Counter;
use code_trees::exit_forms::{past_exits, past_if};
use code_trees::held_parts::{Held, hold, nothing_held};
use code_trees::loop_forms::{is_endless, looped, repeating};
use code_trees::making::{does, pair};
use code_trees::{Part, Routine};
use held_trees::both;
use mesa_base::{List, OutOfMemory};
use mesa_types::{Condition, Exit, Loop, TypedStmt};
use std::alloc::Global;

/// A loop with the statements of its labels.
#[cycle(blocks)]
pub(crate) fn a_loop(
    alloc: Global,
    routine: &Routine,
    next: &mut u16,
    counter: Counter,
    l: &Loop,
) -> Result<Part, OutOfMemory>
    requires room { next.old + hidden_loop (loop l.now) ≤ 65535 }
    requires fits { excess (spec.loop (coded routine.now) next.old (counter_of counter) (loop l.now)) ≡ 0 }
    ensures block { IfOk result (λ made. plain made.block ≡ spec.loop (coded routine.now) next.old (counter_of counter) (loop l.now)) }
    ensures next { OnOk result (next.new ≡ next.old + hidden_loop (loop l.now)) }
{
    room_for_condition(routine, *next, &l.condition);
    let test = control(alloc, routine, next, &l.condition)?;
    room_for_statement(routine, *next, &l.body);
    let (kept, made) = both(test, block(alloc, routine, next, &l.body))?;
    let rounds = repeating(alloc, routine, counter, kept, made)?;
    let es = l.exits.as_slice();
    room_for_exits(routine, *next, es);
    let (turns, held) = both(rounds, exits(alloc, routine, next, es))?;
    let endless = is_endless(counter, &l.condition);
    match &l.finished {
        Some(s) => {
            let jumps = !es.is_empty();
            room_for_finish(routine, *next, endless, jumps, s);
            let (parts, last) = both(
                (turns, held),
                finished(alloc, routine, next, endless, jumps, s),
            )?;
            let (turns, held) = parts;
            looped(alloc, turns, last, es, held)
        }
        None => {
            let last = unfinished(alloc, endless, es);
            looped(alloc, turns, last, es, held)
        }
    }
}

/// Behind a loop without FINISHED: past the statements of its labels.
fn unfinished(alloc: Global, endless: bool, es: &[Exit]) -> Part
    ensures { plain result.block ≡ spec.unless endless (spec.past_exits (chain (map exit es.now) t.NoExits) 0) }
{
    if endless {
        does(List::new(alloc))
    } else {
        past_exits(alloc, es)
    }
}

/// The statement of FINISHED, and past the statements of labels where it is to. Behind an endless loop it has no code, and its
/// hidden words are left out.
#[cycle(blocks)]
#[tactic(auto, unfolding(code_trees::specs::Excess::excess))]
pub(crate) fn finished(
    alloc: Global,
    routine: &Routine,
    next: &mut u16,
    endless: bool,
    jumps: bool,
    s: &TypedStmt,
) -> Result<Part, OutOfMemory>
    requires room { next.old + hidden (stmt s.now) ≤ 65535 }
    requires fits { excess (spec.unless endless (tree.Both (spec.block (coded routine.now) next.old (stmt s.now)) (past_if jumps 0))) ≡ 0 }
    ensures block { IfOk result (λ made. plain made.block ≡ spec.unless endless (tree.Both (spec.block (coded routine.now) next.old (stmt s.now)) (past_if jumps 0))) }
    ensures next { OnOk result (next.new ≡ next.old + hidden (stmt s.now)) }
{
    if endless {
        *next += hidden_words(s) as u16;
        Ok(does(List::new(alloc)))
    } else {
        let made = block(alloc, routine, next, s)?;
        pair(alloc, made, past_if(alloc, jumps, 0))
    }
}

/// Out to the end of part 0 where a loop is done.
#[cycle(blocks)]
#[tactic(auto, unfolding(mesa_types::specs::Counts::hidden_condition))]
pub(crate) fn control(
    alloc: Global,
    routine: &Routine,
    next: &mut u16,
    of: &Condition,
) -> Result<Part, OutOfMemory>
    requires room { next.old + hidden_condition (condition of.now) ≤ 65535 }
    requires fits { excess (spec.condition (coded routine.now) next.old (condition of.now)) ≡ 0 }
    ensures block { IfOk result (λ made. plain made.block ≡ spec.condition (coded routine.now) next.old (condition of.now)) }
    ensures next { OnOk result (next.new ≡ next.old + hidden_condition (condition of.now)) }
{
    match of {
        Condition::Always => Ok(does(List::new(alloc))),
        Condition::While(e) => {
            room_for_jump(routine, *next, e, false, 0);
            jump(alloc, routine, next, e, false, 0)
        }
        Condition::Until(e) => {
            room_for_jump(routine, *next, e, true, 0);
            jump(alloc, routine, next, e, true, 0)
        }
    }
}

/// The statements of labels, one by one.
#[cycle(blocks)]
#[tactic(auto, unfolding(mesa_types::specs::Counts::hidden, code_trees::specs::Forms::exit_blocks, code_trees::specs::Rows::excess_among))]
pub(crate) fn exits(
    alloc: Global,
    routine: &Routine,
    next: &mut u16,
    es: &[Exit],
) -> Result<Held, OutOfMemory>
    requires room { next.old + hidden_exits (chain (map exit es.now) t.NoExits) ≤ 65535 }
    requires fits { excess_among (exit_blocks (coded routine.now) next.old (chain (map exit es.now) t.NoExits)) ≡ 0 }
    ensures together { IfOk result (λ held. length held.parts.items ≡ length es.now) }
    ensures blocks { IfOk result (λ held. blocks_of held.parts.items ≡ exit_blocks (coded routine.now) next.old (chain (map exit es.now) t.NoExits)) }
    ensures next { OnOk result (next.new ≡ next.old + hidden_exits (chain (map exit es.now) t.NoExits)) }
{
    let mut held = nothing_held(alloc);
    for exit in es {
        let (before, statement) = both(held, block(alloc, routine, next, &exit.body))?;
        held = hold(before, statement)?;
    }
    Ok(held)
}
