//! What stands before the statements of labels, with these behind it.
ghost use Rattle.std.specs.Prelude.{◌≡◌, ◌+◌, ◌≤◌, [], ◌∷◌, ◌++◌, map, length, not, IfOk};
ghost use Rattle.mesa_base.specs.Chain.{chain};
ghost use Rattle.mesa_types.specs.Plain.{exit};
ghost use Rattle.mesa_types.specs.Typed as t;
ghost use Rattle.code_blocks.specs.Blocks as tree;
ghost use Rattle.code_blocks.specs.Translation as spec;
ghost use Rattle.code_trees.specs.Excess.{excess};
ghost use Rattle.code_trees.specs.Forms.{blocks_of, labelled, past_if};
ghost use Rattle.code_trees.specs.Plain.{off_in_arms, plain, plain_arms};

use crate::block::{ArmBlocks, Leap, Mark};
use crate::held_parts::Held;
use crate::making::{does, enables, ends, out, pair};
use crate::part::Part;
use held_trees::{LetGo, both};
use mesa_base::{List, Numbers, OutOfMemory};
use mesa_types::Exit;
use std::alloc::Global;

/// A jump to the end of a part around, or nothing where control falls there.
pub fn past_if(alloc: Global, jumps: bool, part: u32) -> Part
    ensures { plain result.block ≡ past_if jumps part }
{
    if jumps {
        out(Leap::Anyhow, part)
    } else {
        does(List::new(alloc))
    }
}

/// Past the statements of labels, if there are any.
pub fn past_exits(alloc: Global, exits: &[Exit]) -> Part
    ensures { plain result.block ≡ spec.past_exits (chain (map exit exits.now) t.NoExits) 0 }
{
    match exits {
        [] => does(List::new(alloc)),
        [_, ..] => out(Leap::Anyhow, 0),
    }
}

/// The statement of some labels behind what stands before it.
#[tactic(auto, unfolding(crate::specs::Excess::excess))]
fn with_exit(
    alloc: Global,
    before: Part,
    labels: &Numbers,
    statement: Part,
    jumps: bool,
) -> Result<Part, OutOfMemory>
    requires { excess (tree.Both (tree.Ends (tree.Labels labels.now) (plain before.block)) (tree.Both (plain statement.block) (past_if jumps 0))) ≡ 0 }
    ensures { IfOk result (λ made. plain made.block ≡ tree.Both (tree.Ends (tree.Labels labels.now) (plain before.block)) (tree.Both (plain statement.block) (past_if jumps 0))) }
{
    let ((before, statement), labels) = both(
        (before, statement),
        List::from_slice(alloc, labels.as_slice()),
    )?;
    let (statement, before) = both(statement, ends(alloc, Mark::Labels(labels), before))?;
    let (before, statement) = both(before, pair(alloc, statement, past_if(alloc, jumps, 0)))?;
    pair(alloc, before, statement)
}

/// A part in which a phrase is enabled, if there is one.
#[tactic(auto, using(crate::proofs::ArmLaws::no_arms, crate::proofs::ArmLaws::some_arms))]
pub fn enabled(alloc: Global, arms: ArmBlocks, part: Part) -> Result<Part, OutOfMemory>
    requires { off_in_arms arms ≡ 0 }
    ensures { IfOk result (λ made. plain made.block ≡ spec.enabled (plain_arms arms) (plain part.block)) }
{
    if arms.is_empty() {
        arms.let_go();
        Ok(part)
    } else {
        enables(alloc, arms, part)
    }
}

/// The statements of labels behind what stands before the first of them: there are as many as labels.
pub fn with_exits(
    alloc: Global,
    before: Part,
    exits: &[Exit],
    held: Held,
) -> Result<Part, OutOfMemory>
    requires together { length held.parts.items ≡ length exits.now }
    requires fits { excess (labelled (chain (map exit exits.now) t.NoExits) (blocks_of held.parts.items) (plain before.block)) ≡ 0 }
    ensures { IfOk result (λ made. plain made.block ≡ labelled (chain (map exit exits.now) t.NoExits) (blocks_of held.parts.items) (plain before.block)) }
{
    let mut before = before;
    let mut held = held;
    let mut left = exits.len();
    for exit in exits {
        left -= 1;
        let Some(statement) = held.parts.pop_front() else {
            before.let_go();
            held.let_go();
            return Err(OutOfMemory);
        };
        let (rest, made) = both(
            held,
            with_exit(alloc, before, &exit.labels, statement, left != 0),
        )?;
        held = rest;
        before = made;
    }
    held.let_go();
    Ok(before)
}

/// What stands before the statements of labels, these behind it, and the end of all.
pub fn with_labels(
    alloc: Global,
    before: Part,
    exits: &[Exit],
    held: Held,
) -> Result<Part, OutOfMemory>
    requires together { length held.parts.items ≡ length exits.now }
    requires fits { excess (labelled (chain (map exit exits.now) t.NoExits) (blocks_of held.parts.items) (plain before.block)) ≡ 0 }
    ensures { IfOk result (λ made. plain made.block ≡ tree.Ends (tree.Here 0) (labelled (chain (map exit exits.now) t.NoExits) (blocks_of held.parts.items) (plain before.block))) }
{
    let made = with_exits(alloc, before, exits, held)?;
    ends(alloc, Mark::Here(0), made)
}

/// A block with its phrase and its labels.
pub fn enclosed(
    alloc: Global,
    arms: ArmBlocks,
    part: Part,
    exits: &[Exit],
    held: Held,
) -> Result<Part, OutOfMemory>
    requires right { off_in_arms arms ≡ 0 }
    requires together { length held.parts.items ≡ length exits.now }
    requires fits { excess (labelled (chain (map exit exits.now) t.NoExits) (blocks_of held.parts.items) (tree.Both (spec.enabled (plain_arms arms) (plain part.block)) (spec.past_exits (chain (map exit exits.now) t.NoExits) 0))) ≡ 0 }
    ensures { IfOk result (λ made. plain made.block ≡ tree.Ends (tree.Here 0) (labelled (chain (map exit exits.now) t.NoExits) (blocks_of held.parts.items) (tree.Both (spec.enabled (plain_arms arms) (plain part.block)) (spec.past_exits (chain (map exit exits.now) t.NoExits) 0)))) }
{
    let (held, part) = both(held, passed(alloc, arms, part, exits))?;
    with_labels(alloc, part, exits, held)
}

/// What stands before the labels of a block, and the jump past their statements.
#[tactic(auto, unfolding(crate::specs::Excess::excess))]
fn passed(alloc: Global, arms: ArmBlocks, part: Part, exits: &[Exit]) -> Result<Part, OutOfMemory>
    requires right { off_in_arms arms ≡ 0 }
    requires fits { excess (tree.Both (spec.enabled (plain_arms arms) (plain part.block)) (spec.past_exits (chain (map exit exits.now) t.NoExits) 0)) ≡ 0 }
    ensures { IfOk result (λ made. plain made.block ≡ tree.Both (spec.enabled (plain_arms arms) (plain part.block)) (spec.past_exits (chain (map exit exits.now) t.NoExits) 0)) }
{
    let part = enabled(alloc, arms, part)?;
    pair(alloc, part, past_exits(alloc, exits))
}
