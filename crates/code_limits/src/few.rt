//! The test whether four bytes count the links of a code.
ghost use Rattle.std.specs.Prelude.{◌≡◌, ◌<◌, ◌^◌, ◌↔◌, length, true, All};
ghost use Rattle.code_limits.specs.Few.{AllLeaveFew, FewLinksAndArms, LeavesFew, arms_left};

use code_forms::{CodeEntry, CodeProcedure, Instruction, ModuleCode};

/// How many arms an instruction leaves: the type of the number says that two bytes count them.
fn arms_of(instruction: &Instruction) -> u16
    ensures same { result ≡ arms_left instruction.now }
    ensures few { arms_left instruction.now < 65536 }
{
    match instruction {
        Instruction::Leave { arms, .. } => *arms,
        Instruction::LeaveReturn { arms } => *arms,
        _ => 0,
    }
}

fn leave_few(code: &[CodeEntry])
    ensures { All LeavesFew code.now }
{
    for entry in code {
        arms_of(&entry.instruction);
    }
}

fn all_leave_few(procedures: &[CodeProcedure])
    ensures { All AllLeaveFew procedures.now }
{
    for procedure in procedures {
        leave_few(procedure.code.as_slice());
    }
}

/// Whether four bytes count the links of a code. Two bytes count the arms that each jump leaves, by the type of that number, so then
/// the code has no more of both than files ask.
pub fn has_few_links(code: &ModuleCode) -> bool
    ensures test { result ≡ true ↔ length code.now.links < 2 ^ 32 }
    ensures few { result ≡ true → FewLinksAndArms code.now.links code.now.procedures }
{
    all_leave_few(code.procedures.as_slice());
    code.links.len() <= u32::MAX as usize
}
