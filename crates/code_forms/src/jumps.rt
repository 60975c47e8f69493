//! Whether the jumps of a procedure lead where they may.
ghost use Rattle.std.specs.Prelude.{◌≡◌, ◌↔◌, IsTrue};
ghost use Rattle.code_forms.specs.Around.{routine_around};
ghost use Rattle.code_forms.specs.Jumps.{GoesForward, GoesBack, GoesOut, ReturnsOut, JumpsRightly};
ghost use Rattle.code_forms.specs.Ranges.{InOrder};
ghost use Rattle.code_forms.specs.Rising.{RegionsRise};
ghost use Rattle.code_forms.specs.Routine.{IsStart, spots};

use crate::around::Around;
use crate::instruction::Instruction;
use crate::lookups::{entry_at, region_of, region_outward};
use crate::module_code::CodeEntry;
use crate::region::Region;

/// Whether an instruction begins at the offset.
pub fn is_start(code: &[CodeEntry], offset: u32) -> bool
    requires { InOrder code.now }
    ensures { IsTrue result ↔ IsStart (spots code.now) offset }
{
    match entry_at(code, offset) {
        Some(_) => true,
        None => false,
    }
}

fn goes_forward(around: &Around, code: &[CodeEntry], at: u32, target: u32) -> bool
    requires order { InOrder code.now }
    requires rise { RegionsRise around.now.phrases.now }
    ensures { IsTrue result ↔ GoesForward (routine_around around.now (spots code.now)) at target }
{
    if !is_start(code, target) {
        return false;
    }
    if region_of(around.phrases, target) != region_of(around.phrases, at) {
        return false;
    }
    at < target
}

fn goes_back(around: &Around, code: &[CodeEntry], at: u32, target: u32) -> bool
    requires order { InOrder code.now }
    requires rise { RegionsRise around.now.phrases.now }
    ensures { IsTrue result ↔ GoesBack (routine_around around.now (spots code.now)) at target }
{
    if !is_start(code, target) {
        return false;
    }
    if region_of(around.phrases, target) != region_of(around.phrases, at) {
        return false;
    }
    target <= at
}

fn goes_out(around: &Around, code: &[CodeEntry], at: u32, arms: u16, target: u32) -> bool
    requires order { InOrder code.now }
    requires rise { RegionsRise around.now.phrases.now }
    ensures { IsTrue result ↔ GoesOut (routine_around around.now (spots code.now)) at arms target }
{
    if !is_start(code, target) {
        return false;
    }
    if arms == 0 {
        return false;
    }
    match region_outward(around.phrases, arms, region_of(around.phrases, at)) {
        Some(region) => region == region_of(around.phrases, target),
        None => false,
    }
}

fn returns_out(around: &Around, code: &[CodeEntry], at: u32, arms: u16) -> bool
    requires order { InOrder code.now }
    requires rise { RegionsRise around.now.phrases.now }
    ensures { IsTrue result ↔ ReturnsOut (routine_around around.now (spots code.now)) at arms }
{
    if arms == 0 {
        return false;
    }
    match region_outward(around.phrases, arms, region_of(around.phrases, at)) {
        Some(Region::Body) => true,
        Some(Region::ArmOf { .. }) => false,
        None => false,
    }
}

/// Whether the instruction at the offset leads where it may.
pub fn jumps_rightly(around: &Around, code: &[CodeEntry], at: u32, instruction: Instruction) -> bool
    requires order { InOrder code.now }
    requires rise { RegionsRise around.now.phrases.now }
    ensures { IsTrue result ↔ JumpsRightly (routine_around around.now (spots code.now)) at instruction }
{
    match instruction {
        Instruction::Jump { target }
        | Instruction::JumpIf { target }
        | Instruction::JumpIfNot { target } => { goes_forward(around, code, at, target) }
        Instruction::JumpBack { target } => goes_back(around, code, at, target),
        Instruction::Leave { arms, target } => goes_out(around, code, at, arms, target),
        Instruction::LeaveReturn { arms } => returns_out(around, code, at, arms),
        _ => true,
    }
}
