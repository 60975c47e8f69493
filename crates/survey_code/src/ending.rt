//! How an arm may end, by those of its instructions that are reached.

ghost use Rattle.std.specs.Prelude.{◌≡◌, ◌<◌, ◌≤◌, length, nat_lt, if◌then◌else◌};
ghost use Rattle.std.specs.List.{AllWithin};
ghost use Rattle.code_forms.specs.declared.module_code.ModuleCode.{ModuleCode as Code};
ghost use Rattle.code_forms.specs.Ranges.{InOrder};
ghost use Rattle.survey_code.specs.Endings.{TellReached, ending_with, resumed};
ghost use Rattle.survey_code.specs.Sites.{IsEnding};

use crate::surveyed::Ending;
use code_forms::{Arm, CodeEntry, CodeProcedure, Instruction};

fn resumed(ending: Ending, words: u16) -> Ending
    ensures { result ≡ resumed ending words }
{
    match ending {
        Ending::Stops => Ending::Resumes(words),
        Ending::Resumes(others) => {
            if others == words {
                ending
            } else {
                Ending::Passes
            }
        }
        Ending::Passes => ending,
    }
}

fn ending_with(ending: Ending, instruction: Instruction) -> Ending
    ensures { result ≡ ending_with ending instruction }
{
    match instruction {
        Instruction::ArmEnd => Ending::Passes,
        Instruction::Resume { words } => resumed(ending, words),
        _ => ending,
    }
}

// An instruction of the arm more, that is reached or not.
fn ending_by(ending: Ending, reached: bool, instruction: Instruction) -> Ending
    ensures { result ≡ (if reached then ending_with ending instruction else ending) }
{
    if reached {
        return ending_with(ending, instruction);
    }
    ending
}

// How many instructions begin before the offset.
pub(crate) fn entries_before(code: &[CodeEntry], offset: u32) -> usize
    requires { InOrder code.now }
    ensures bound { result ≤ length code.now }
    ensures before { AllWithin (λ e. e.at < offset) code.now 0 result }
    ensures rest { AllWithin (λ e. offset ≤ e.at) code.now result (length code.now) }
{
    code.partition_point(
        |entry: &CodeEntry| -> bool
            ensures { result ≡ nat_lt entry.now.at offset }
        { entry.at < offset },
    )
}

/// How an arm of the procedure may end, where the marks tell which of its instructions are reached. It looks at those of the arm alone.
pub fn ending_of(procedure: &CodeProcedure, marks: &[bool], arm: &Arm) -> Ending
    requires order { InOrder procedure.now.code }
    requires count { length marks.now ≡ length procedure.now.code }
    ensures { (m : Code) → TellReached m procedure.now marks.now → IsEnding m procedure.now arm.now result }
{
    let code = procedure.code.as_slice();
    let mut ending = Ending::Stops;
    for at in entries_before(code, arm.start)..code.len() {
        if arm.end <= code[at].at {
            return ending;
        }
        ending = ending_by(ending, marks[at], code[at].instruction);
    }
    ending
}
