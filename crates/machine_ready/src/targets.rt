//! Where the jumps of a procedure go.

ghost use Rattle.std.specs.Prelude.{◌≡◌, ℕ, IfOk, nat_lt};
ghost use Rattle.std.specs.Option.{option_or};
ghost use Rattle.code_forms.specs.Depths.{forward_target, backward_target};
ghost use Rattle.code_forms.specs.Ranges.{InOrder};
ghost use Rattle.code_forms.specs.Routine.{Begins, IsStart, spots};
ghost use Rattle.machine_activations.specs.machine_topmost.specs.Running.{HasTargets};
ghost use Rattle.machine_ready.specs.Targets.{JumpsTo, JumpsToStarts};

use code_forms::{CodeEntry, Instruction};
use mesa_base::{List, Numbers, OutOfMemory};
use std::alloc::Global;

// The offset to which an instruction jumps in its own activation.
fn target_of(instruction: Instruction) -> Option<u32>
    ensures { result ≡ option_or (forward_target instruction) (backward_target instruction) }
{
    match instruction {
        Instruction::Jump { target }
        | Instruction::JumpIf { target }
        | Instruction::JumpIfNot { target }
        | Instruction::JumpBack { target } => Some(target),
        _ => None,
    }
}

/// The number of the instruction that begins at the offset, where one does.
pub(crate) fn entry_at(code: &[CodeEntry], offset: u32) -> u32
    requires { InOrder code.now }
    ensures { IsStart (spots code.now) offset → Begins (spots code.now) result offset }
{
    code.partition_point(
        |entry: &CodeEntry| -> bool
            ensures { result ≡ nat_lt entry.now.at offset }
        { entry.at < offset },
    ) as u32
}

fn entry_of(code: &[CodeEntry], instruction: Instruction) -> u32
    requires order { InOrder code.now }
    requires starts { (offset : ℕ) → JumpsTo instruction offset → IsStart (spots code.now) offset }
    ensures { (offset : ℕ) → JumpsTo instruction offset → Begins (spots code.now) result offset }
{
    match target_of(instruction) {
        Some(offset) => entry_at(code, offset),
        None => 0,
    }
}

/// Beside each instruction the number of the one to which it jumps in its own activation. Each jump finds its target by
/// halving.
pub fn targets_of(alloc: Global, code: &[CodeEntry]) -> Result<Numbers, OutOfMemory>
    requires order { InOrder code.now }
    requires starts { JumpsToStarts code.now }
    ensures { IfOk result (HasTargets code.now) }
{
    let mut targets = List::new(alloc);
    for entry in code {
        targets.push(entry_of(code, entry.instruction))?;
    }
    Ok(targets)
}
