//! Loops by what their parts are.
ghost use Rattle.std.specs.Prelude.{◌≡◌, ◌+◌, ◌≤◌, length, map, IfOk};
ghost use Rattle.mesa_base.specs.Chain.{chain};
ghost use Rattle.mesa_types.specs.Plain.{condition, exit, interval};
ghost use Rattle.mesa_types.specs.Typed as t;
ghost use Rattle.code_rules.specs.Loops.{step_code};
ghost use Rattle.code_blocks.specs.Blocks as tree;
ghost use Rattle.code_blocks.specs.Translation as spec;
ghost use Rattle.code_trees.specs.Excess.{excess};
ghost use Rattle.code_trees.specs.Forms.{blocks_of, counter_of, labelled, rounds_of};
ghost use Rattle.code_trees.specs.Plain.{plain};
ghost use Rattle.code_trees.specs.Routines.{coded};

use crate::block::Mark;
use crate::counter::Counter;
use crate::exit_forms::with_labels;
use crate::held_parts::Held;
use crate::loop_code::{given_next, head, start, step};
use crate::making::{does, ends, pair, rounds, then};
use crate::part::Part;
use crate::routine::Routine;
use held_trees::both;
use mesa_base::OutOfMemory;
use mesa_types::{Base, Condition, Exit, Interval};
use std::alloc::Global;

/// What an endless loop without a count would do at its end is never done.
pub fn is_endless(counter: Counter, control: &Condition) -> bool
    ensures { result ≡ spec.is_endless (counter_of counter) (condition control.now) }
{
    match (counter, control) {
        (Counter::Uncounted, Condition::Always) => true,
        (Counter::Uncounted, Condition::While(_))
        | (Counter::Uncounted, Condition::Until(_))
        | (Counter::CountedIn(_, _, _), _) => false,
    }
}

/// The body of a loop, and what is counted behind it.
#[tactic(auto, unfolding(crate::specs::Excess::excess))]
fn stepped(alloc: Global, counter: Counter, body: Part) -> Result<Part, OutOfMemory>
    requires { excess (tree.Both (plain body.block) (tree.Does (step_code (counter_of counter)))) ≡ 0 }
    ensures { IfOk result (λ made. plain made.block ≡ tree.Both (plain body.block) (tree.Does (step_code (counter_of counter)))) }
{
    let (body, code) = both(body, step(alloc, counter))?;
    then(alloc, body, code)
}

/// What is done once before each round's condition: one is left, and its number is given to the variable.
#[tactic(auto, unfolding(crate::specs::Excess::excess))]
fn counted(
    alloc: Global,
    routine: &Routine,
    counter: Counter,
    round: Part,
) -> Result<Part, OutOfMemory>
    requires { excess (tree.Both (spec.head_code (counter_of counter)) (tree.Both (spec.gives_next (coded routine.now) (counter_of counter)) (plain round.block))) ≡ 0 }
    ensures { IfOk result (λ made. plain made.block ≡ tree.Both (spec.head_code (counter_of counter)) (tree.Both (spec.gives_next (coded routine.now) (counter_of counter)) (plain round.block))) }
{
    let (round, given) = both(round, given_next(alloc, routine, counter))?;
    let round = pair(alloc, given, round)?;
    let (round, head) = both(round, head(alloc, counter))?;
    pair(alloc, head, round)
}

/// The rounds of a loop.
#[tactic(auto, unfolding(crate::specs::Excess::excess))]
pub fn repeating(
    alloc: Global,
    routine: &Routine,
    counter: Counter,
    test: Part,
    body: Part,
) -> Result<Part, OutOfMemory>
    requires { excess (rounds_of (coded routine.now) (counter_of counter) (plain test.block) (plain body.block)) ≡ 0 }
    ensures { IfOk result (λ made. plain made.block ≡ rounds_of (coded routine.now) (counter_of counter) (plain test.block) (plain body.block)) }
{
    let (test, body) = both(test, stepped(alloc, counter, body))?;
    let round = pair(alloc, test, body)?;
    let round = counted(alloc, routine, counter, round)?;
    let round = rounds(alloc, round)?;
    ends(alloc, Mark::Here(0), round)
}

/// A counted loop behind its bounds.
#[tactic(auto, unfolding(crate::specs::Excess::excess))]
pub fn started(
    alloc: Global,
    slot: u16,
    base: Base,
    range: &Interval,
    bounds: Part,
    made: Part,
) -> Result<Part, OutOfMemory>
    requires room { slot + 2 ≤ 65535 }
    requires fits { excess (tree.Both (plain bounds.block) (tree.Both (tree.Does (spec.start_of slot base (interval range.now))) (plain made.block))) ≡ 0 }
    ensures { IfOk result (λ whole. plain whole.block ≡ tree.Both (plain bounds.block) (tree.Both (tree.Does (spec.start_of slot base (interval range.now))) (plain made.block))) }
{
    let ((bounds, made), code) = both((bounds, made), start(alloc, slot, base, range))?;
    let (bounds, made) = both(bounds, pair(alloc, does(code), made))?;
    pair(alloc, bounds, made)
}

/// The rounds of a loop, and what is done behind the last one.
#[tactic(auto, unfolding(crate::specs::Excess::excess))]
fn concluded(alloc: Global, rounds: Part, finish: Part) -> Result<Part, OutOfMemory>
    requires { excess (tree.Both (plain rounds.block) (plain finish.block)) ≡ 0 }
    ensures { IfOk result (λ made. plain made.block ≡ tree.Both (plain rounds.block) (plain finish.block)) }
{
    pair(alloc, rounds, finish)
}

/// The rounds of a loop, what is done behind the last one, and the statements of its labels.
pub fn looped(
    alloc: Global,
    rounds: Part,
    finish: Part,
    exits: &[Exit],
    held: Held,
) -> Result<Part, OutOfMemory>
    requires together { length held.parts.items ≡ length exits.now }
    requires fits { excess (labelled (chain (map exit exits.now) t.NoExits) (blocks_of held.parts.items) (tree.Both (plain rounds.block) (plain finish.block))) ≡ 0 }
    ensures { IfOk result (λ made. plain made.block ≡ tree.Ends (tree.Here 0) (labelled (chain (map exit exits.now) t.NoExits) (blocks_of held.parts.items) (tree.Both (plain rounds.block) (plain finish.block)))) }
{
    let (held, made) = both(held, concluded(alloc, rounds, finish))?;
    with_labels(alloc, made, exits, held)
}
