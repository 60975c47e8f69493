//! Blocks of catch phrases.
ghost use Rattle.std.specs.Prelude.{◌≡◌, ◌+◌, ◌≤◌, map, IfOk, OnOk};
ghost use Rattle.mesa_base.specs.Chain.{chain};
ghost use Rattle.mesa_types.specs.Counts.{hidden_arms, hidden_phrase};
ghost use Rattle.mesa_types.specs.Plain.{arm, phrase};
ghost use Rattle.mesa_types.specs.Typed as t;
ghost use Rattle.code_blocks.specs.Translation as spec;
ghost use Rattle.code_trees.specs.Excess.{excess_in_arms};
ghost use Rattle.code_trees.specs.Plain.{off_in_arms, plain_arms};
ghost use Rattle.code_trees.specs.Routines.{coded};

use crate::rooms::{room_for_arms, room_for_statement};
use crate::statements::block;
use crate::turns::armed;
use code_trees::{ArmBlocks, Routine};
use held_trees::both;
use mesa_base::{List, OutOfMemory};
use mesa_types::{Arm, Phrase};
use std::alloc::Global;

/// The arms of a phrase; none where there is none.
#[cycle(blocks)]
#[tactic(auto, unfolding(mesa_types::specs::Counts::hidden_phrase, code_trees::specs::Excess::excess_in_arms, code_trees::specs::Plain::plain_arms, code_trees::specs::Plain::off_in_arms))]
pub(crate) fn caught_by(
    alloc: Global,
    routine: &Routine,
    next: &mut u16,
    catching: &Phrase,
) -> Result<ArmBlocks, OutOfMemory>
    requires room { next.old + hidden_phrase (phrase catching.now) ≤ 65535 }
    requires fits { excess_in_arms (spec.caught_by (coded routine.now) next.old (phrase catching.now)) ≡ 0 }
    ensures blocks { IfOk result (λ made. plain_arms made ≡ spec.caught_by (coded routine.now) next.old (phrase catching.now)) }
    ensures right { IfOk result (λ made. off_in_arms made ≡ 0) }
    ensures next { OnOk result (next.new ≡ next.old + hidden_phrase (phrase catching.now)) }
{
    match catching {
        Phrase::NoPhrase => Ok(List::new(alloc)),
        Phrase::Catch(_, arms) => {
            let arms = arms.as_slice();
            room_for_arms(routine, *next, arms);
            arm_blocks(alloc, routine, next, arms)
        }
    }
}

/// The arms one by one.
#[cycle(blocks)]
pub(crate) fn arm_blocks(
    alloc: Global,
    routine: &Routine,
    next: &mut u16,
    arms: &[Arm],
) -> Result<ArmBlocks, OutOfMemory>
    requires room { next.old + hidden_arms (chain (map arm arms.now) t.NoArms) ≤ 65535 }
    requires fits { excess_in_arms (spec.arm_blocks (coded routine.now) next.old (chain (map arm arms.now) t.NoArms)) ≡ 0 }
    ensures blocks { IfOk result (λ made. plain_arms made ≡ spec.arm_blocks (coded routine.now) next.old (chain (map arm arms.now) t.NoArms)) }
    ensures right { IfOk result (λ made. off_in_arms made ≡ 0) }
    ensures next { OnOk result (next.new ≡ next.old + hidden_arms (chain (map arm arms.now) t.NoArms)) }
{
    let mut made = List::new(alloc);
    for arm in arms {
        room_for_statement(routine, *next, &arm.body);
        let (held, body) = both(made, block(alloc, routine, next, &arm.body))?;
        let on = arm.labels.as_slice();
        made = armed(alloc, routine, held, on, arm.first, arm.count, body)?;
    }
    Ok(made)
}
