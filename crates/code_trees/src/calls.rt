//! Lists of values for a constructor, a call or a raise.
ghost use Rattle.std.specs.Prelude.{◌≡◌, ◌+◌, ◌≤◌, IfOk};
ghost use Rattle.code_rules.specs.OwnCode as own;
ghost use Rattle.code_blocks.specs.Blocks as tree;
ghost use Rattle.code_trees.specs.Excess.{excess, excess_in};
ghost use Rattle.code_trees.specs.Plain.{off_in_arms, plain, plain_arms};

use crate::arranging::arranged;
use crate::block::{ArmBlocks, Code};
use crate::making::{calls, does, pair, then};
use crate::part::Part;
use crate::sums::total;
use code_forms::Instruction;
use held_trees::both;
use mesa_base::OutOfMemory;
use std::alloc::Global;

/// The values come into the order of their places. With their words.
#[tactic(auto, unfolding(crate::specs::Excess::excess))]
pub fn constructed(
    alloc: Global,
    values: Part,
    places: &[u32],
    sizes: &[u64],
) -> Result<(Part, u64), OutOfMemory>
    requires { excess (tree.Both (plain values.block) (tree.Does (own.arrange_code places.now sizes.now))) ≡ 0 }
    ensures block { IfOk result (λ made. plain made.0.block ≡ tree.Both (plain values.block) (tree.Does (own.arrange_code places.now sizes.now))) }
    ensures words { IfOk result (λ made. made.1 ≡ own.total sizes.now) }
{
    let (values, (code, words)) = both(values, arguments(alloc, places, sizes))?;
    Ok((then(alloc, values, code)?, words))
}

fn arguments(alloc: Global, places: &[u32], sizes: &[u64]) -> Result<(Code, u64), OutOfMemory>
    requires { excess_in (own.arrange_code places.now sizes.now) ≡ 0 }
    ensures code { IfOk result (λ made. made.0 ≡ own.arrange_code places.now sizes.now) }
    ensures words { IfOk result (λ made. made.1 ≡ own.total sizes.now) }
{
    let code = arranged(alloc, places, sizes)?;
    Ok((code, total(sizes)?))
}

/// Behind the values stands the call or raise that takes them, with the arms of its phrase.
#[tactic(auto, unfolding(crate::specs::Excess::excess))]
pub fn called(
    alloc: Global,
    values: Part,
    places: &[u32],
    sizes: &[u64],
    call: Instruction,
    puts: u32,
    arms: ArmBlocks,
) -> Result<Part, OutOfMemory>
    requires fits { excess (tree.Both (plain values.block) (tree.Both (tree.Does (own.arrange_code places.now sizes.now)) (tree.Calls call (own.total sizes.now) puts (plain_arms arms)))) ≡ 0 }
    requires right { off_in_arms arms ≡ 0 }
    ensures { IfOk result (λ made. plain made.block ≡ tree.Both (plain values.block) (tree.Both (tree.Does (own.arrange_code places.now sizes.now)) (tree.Calls call (own.total sizes.now) puts (plain_arms arms)))) }
{
    let ((values, arms), (code, takes)) = both((values, arms), arguments(alloc, places, sizes))?;
    let call = calls(call, takes as u32, puts, arms);
    let (values, call) = both(values, pair(alloc, does(code), call))?;
    pair(alloc, values, call)
}
