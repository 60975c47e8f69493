//! The depth that an instruction leaves, and whether it agrees with the depths of those to which it leads.
ghost use Rattle.std.specs.Prelude.{◌≡◌, ◌≢◌, [], ℕ, ◌+◌, ◌<◌, ◌≤◌, ◌↔◌, length, IsTrue, MatchOption, slice_index_or, slice_get, Some};
ghost use Rattle.code_forms.specs.declared.module_code.CodeEntry.{CodeEntry};
ghost use Rattle.code_forms.specs.Around.{routine_around};
ghost use Rattle.code_forms.specs.Depths.{depth_after, forward_target, backward_target, outward_target, is_return, DepthFits, Reaches, Stays};
ghost use Rattle.code_forms.specs.Marks.{unsettled};
ghost use Rattle.code_forms.specs.Ranges.{InOrder};
ghost use Rattle.code_forms.specs.Rising.{RegionsRise};
ghost use Rattle.code_forms.specs.Routine.{goes_on, spots, spot_of};

use crate::around::Around;
use crate::instruction::Instruction;
use crate::lookups::{entry_at, region_of};
use crate::module_code::CodeEntry;

/// The number beside an instruction whose depth no earlier one settles. No depth is as large.
pub const UNSETTLED: u32 = u32::MAX;

// The depth that the instruction leaves; None where it takes more than is there or puts more than there is room for.
pub fn depth_after(around: &Around, instruction: Instruction, depth: u32) -> Option<u32>
    ensures { MatchOption result (DepthFits (routine_around around.now []) instruction depth → ⊥) (λ after. DepthFits (routine_around around.now []) instruction depth × (after ≡ depth_after (routine_around around.now []) instruction depth)) }
{
    let moved = around.moves(instruction);
    let before = u64::from(depth);
    if before < moved.takes {
        return None;
    }
    let rest = before - moved.takes;
    let room = u64::from(around.room);
    if room < rest {
        return None;
    }
    if room - rest < moved.puts {
        return None;
    }
    Some((rest + moved.puts) as u32)
}

pub fn is_return(instruction: Instruction) -> bool
    ensures { result ≡ is_return instruction }
{
    matches!(instruction, Instruction::Return)
}

fn forward_target(instruction: Instruction) -> Option<u32>
    ensures { result ≡ forward_target instruction }
{
    match instruction {
        Instruction::Jump { target }
        | Instruction::JumpIf { target }
        | Instruction::JumpIfNot { target } => { Some(target) }
        _ => None,
    }
}

pub fn backward_target(instruction: Instruction) -> Option<u32>
    ensures { result ≡ backward_target instruction }
{
    match instruction {
        Instruction::JumpBack { target } => Some(target),
        _ => None,
    }
}

pub fn outward_target(instruction: Instruction) -> Option<u32>
    ensures { result ≡ outward_target instruction }
{
    match instruction {
        Instruction::Leave { target, .. } => Some(target),
        _ => None,
    }
}

// Whether the instruction goes on to one of its region, if it goes on.
pub fn stays(around: &Around, code: &[CodeEntry], i: usize, entry: CodeEntry) -> bool
    requires order { InOrder code.now }
    requires rise { RegionsRise around.now.phrases.now }
    requires is { slice_get code.now i ≡ Some entry }
    ensures { IsTrue result ↔ Stays (routine_around around.now (spots code.now)) i (spot_of entry) }
{
    if !around.goes_on(entry.instruction) {
        return true;
    }
    if i + 1 == code.len() {
        return false;
    }
    region_of(around.phrases, entry.at + entry.instruction.bytes())
        == region_of(around.phrases, entry.at)
}

// The number of the instruction to which a jump to the offset leads.
fn reached(code: &[CodeEntry], target: Option<u32>) -> Option<usize>
    requires { InOrder code.now }
    ensures { MatchOption result ((j : ℕ) → Reaches (spots code.now) target j → ⊥) (λ j. Reaches (spots code.now) target j) }
{
    match target {
        Some(offset) => entry_at(code, offset),
        None => None,
    }
}

// Whether the depth is that of the instruction, or the instruction has none yet.
fn agrees(code: &[CodeEntry], at: usize, depth: u32) -> bool
    requires { at < length code.now }
    ensures { IsTrue result ↔ ((d : CodeEntry) → (slice_index_or code.now at d).depth ≢ unsettled → depth ≡ (slice_index_or code.now at d).depth) }
{
    code[at].depth == UNSETTLED || depth == code[at].depth
}

// The next instruction, where this one goes on to it.
pub fn next_of(around: &Around, code: &[CodeEntry], i: usize, entry: CodeEntry) -> Option<usize>
    requires { slice_get code.now i ≡ Some entry }
    ensures { MatchOption result (IsTrue (goes_on (routine_around around.now []) entry.instruction) → length code.now ≤ i + 1) (λ j. (j ≡ i + 1) × (j < length code.now) × IsTrue (goes_on (routine_around around.now []) entry.instruction)) }
{
    if !around.goes_on(entry.instruction) {
        return None;
    }
    if i + 1 >= code.len() {
        return None;
    }
    Some(i + 1)
}

// The instruction after this one to which it jumps forward.
pub fn target_of(code: &[CodeEntry], i: usize, entry: CodeEntry) -> Option<usize>
    requires { InOrder code.now }
    ensures { MatchOption result ((j : ℕ) → i < j → Reaches (spots code.now) (forward_target entry.instruction) j → ⊥) (λ j. (i < j) × Reaches (spots code.now) (forward_target entry.instruction) j) }
{
    match reached(code, forward_target(entry.instruction)) {
        Some(j) => {
            if j <= i {
                return None;
            }
            Some(j)
        }
        None => None,
    }
}

// Whether the depth agrees with that of the instruction, where there is one that has a depth.
pub fn agrees_with(code: &[CodeEntry], at: Option<usize>, depth: u32) -> bool
    requires { (j : ℕ) → at ≡ Some j → j < length code.now }
    ensures { IsTrue result ↔ ((j : ℕ) (d : CodeEntry) → at ≡ Some j → (slice_index_or code.now j d).depth ≢ unsettled → depth ≡ (slice_index_or code.now j d).depth) }
{
    match at {
        Some(j) => agrees(code, j, depth),
        None => true,
    }
}

// Whether the instruction to which a jump to the offset leads has the depth beside it.
pub fn agrees_at(code: &[CodeEntry], target: Option<u32>, depth: u32) -> bool
    requires { InOrder code.now }
    ensures { IsTrue result ↔ ((j : ℕ) (d : CodeEntry) → Reaches (spots code.now) target j → depth ≡ (slice_index_or code.now j d).depth) }
{
    match reached(code, target) {
        Some(j) => {
            if depth != code[j].depth {
                return false;
            }
            true
        }
        None => true,
    }
}
