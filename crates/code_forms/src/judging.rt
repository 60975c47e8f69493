//! The look at one instruction: where it leads and with which depth, or its fault.
ghost use Rattle.std.specs.Prelude.{◌≡◌, [], ℕ, ◌+◌, ◌<◌, ◌↔◌, IsTrue, MatchOption, IfOk, IfErr, Some, slice_get};
ghost use Rattle.std.specs.Option.{option_copied};
ghost use Rattle.code_forms.specs.declared.module_code.Arm.{Arm};
ghost use Rattle.code_forms.specs.Around.{routine_around};
ghost use Rattle.code_forms.specs.Depths.{depth_after, is_return, DepthFits, StackIsRight};
ghost use Rattle.code_forms.specs.Marks.{Marked, LeadsTo};
ghost use Rattle.code_forms.specs.Operands.{OperandsAreRight};
ghost use Rattle.code_forms.specs.Ranges.{InOrder};
ghost use Rattle.code_forms.specs.Regions.{arm_of};
ghost use Rattle.code_forms.specs.Rising.{RegionsRise, FromsFirst};
ghost use Rattle.code_forms.specs.Jumps.{JumpsRightly};
ghost use Rattle.code_forms.specs.Routine.{spots, spot_of};
ghost use Rattle.code_forms.specs.Valid.{SpotIsRight, FaultAt};

use crate::around::Around;
use crate::bad_code::CodeFault;
use crate::jumps::jumps_rightly;
use crate::lookups::region_of;
use crate::module_code::{Arm, CodeEntry, Phrase};
use crate::region::Region;
use crate::stack::{
    agrees_at, agrees_with, backward_target, depth_after, is_return, next_of, outward_target,
    stays, target_of,
};

/// The instructions to which one leads, and the depth there.
#[derive(Clone, Copy)]
pub struct Onward {
    pub next: Option<usize>,
    pub target: Option<usize>,
    pub depth: u32,
}

// The arm of the region, where it begins at the offset.
fn begun_arm(phrases: &[Phrase], region: Region, at: u32) -> Option<&Arm>
    ensures { MatchOption (option_copied result) ((arm : Arm) → arm_of phrases.now region ≡ Some arm → arm.start ≡ at → ⊥) (λ arm. (arm_of phrases.now region ≡ Some arm) × (arm.start ≡ at)) }
{
    let arm = match region {
        Region::Body => return None,
        Region::ArmOf { phrase, arm } => match phrases.get(phrase) {
            Some(phrase) => phrase.arms.get(arm),
            None => return None,
        },
    };
    match arm {
        Some(arm) => {
            if arm.start != at {
                return None;
            }
            Some(arm)
        }
        None => None,
    }
}

fn operands_right(around: &Around, entry: CodeEntry) -> bool
    requires { RegionsRise around.now.phrases.now }
    ensures { IsTrue result ↔ OperandsAreRight (routine_around around.now []) (spot_of entry) }
{
    let region = region_of(around.phrases, entry.at);
    if !around.operands_fit(region, entry.instruction) {
        return false;
    }
    match begun_arm(around.phrases, region, entry.at) {
        Some(arm) => around.arm_fits(arm),
        None => true,
    }
}

// Whether the operand stack is empty, if the instruction is a return.
fn returns_rightly(entry: CodeEntry) -> bool
    ensures { IsTrue result ↔ (IsTrue (is_return entry.instruction) → entry.depth ≡ 0) }
{
    if !is_return(entry.instruction) {
        return true;
    }
    entry.depth == 0
}

// Where the instruction leads, given the depth that it leaves; None where it breaks a rule on the operand stack.
fn leads_onward(
    around: &Around,
    code: &[CodeEntry],
    i: usize,
    entry: CodeEntry,
    after: u32,
) -> Option<Onward>
    requires order { InOrder code.now }
    requires rise { RegionsRise around.now.phrases.now }
    requires froms { FromsFirst around.now.phrases.now }
    requires is { slice_get code.now i ≡ Some entry }
    requires marked { Marked (routine_around around.now (spots code.now)) (i + 1) i code.now }
    requires jump { JumpsRightly (routine_around around.now (spots code.now)) entry.at entry.instruction }
    requires fits { DepthFits (routine_around around.now (spots code.now)) entry.instruction entry.depth }
    requires after { after ≡ depth_after (routine_around around.now (spots code.now)) entry.instruction entry.depth }
    ensures { MatchOption result (StackIsRight (routine_around around.now (spots code.now)) i (spot_of entry) entry.depth → ⊥) (λ o. StackIsRight (routine_around around.now (spots code.now)) i (spot_of entry) entry.depth × LeadsTo (routine_around around.now (spots code.now)) i o.next o.target × (o.depth ≡ after)) }
{
    if !returns_rightly(entry) {
        return None;
    }
    if !stays(around, code, i, entry) {
        return None;
    }
    let next = next_of(around, code, i, entry);
    let target = target_of(code, i, entry);
    if !agrees_with(code, next, after) {
        return None;
    }
    if !agrees_with(code, target, after) {
        return None;
    }
    if !agrees_at(code, backward_target(entry.instruction), after) {
        return None;
    }
    if !agrees_at(code, outward_target(entry.instruction), 0) {
        return None;
    }
    Some(Onward {
        next,
        target,
        depth: after,
    })
}

/// Looks at one instruction, which has its depth beside it as those before it have.
pub fn judge(
    around: &Around,
    code: &[CodeEntry],
    i: usize,
    entry: CodeEntry,
) -> Result<Onward, CodeFault>
    requires order { InOrder code.now }
    requires rise { RegionsRise around.now.phrases.now }
    requires froms { FromsFirst around.now.phrases.now }
    requires is { slice_get code.now i ≡ Some entry }
    requires marked { Marked (routine_around around.now (spots code.now)) (i + 1) i code.now }
    ensures ok { IfOk result (λ o. SpotIsRight (routine_around around.now (spots code.now)) i (spot_of entry) × LeadsTo (routine_around around.now (spots code.now)) i o.next o.target × (o.depth ≡ depth_after (routine_around around.now (spots code.now)) entry.instruction entry.depth) × DepthFits (routine_around around.now (spots code.now)) entry.instruction entry.depth) }
    ensures err { IfErr result (FaultAt (routine_around around.now (spots code.now)) i (spot_of entry)) }
{
    if !jumps_rightly(around, code, entry.at, entry.instruction) {
        return Err(CodeFault::BadJump(entry.at));
    }
    let Some(after) = depth_after(around, entry.instruction, entry.depth) else {
        return Err(CodeFault::StackDiffers(entry.at));
    };
    let Some(onward) = leads_onward(around, code, i, entry, after) else {
        return Err(CodeFault::StackDiffers(entry.at));
    };
    if !operands_right(around, entry) {
        return Err(CodeFault::BadOperand(entry.at));
    }
    Ok(onward)
}
