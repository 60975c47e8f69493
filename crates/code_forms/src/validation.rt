//! Whether the code of a module is valid, and else its first fault.
ghost use Rattle.std.specs.Prelude.{◌≡◌, ℕ, ◌<◌, ◌^◌, length, All, IfOk, IfErr, OnOk};
ghost use Rattle.code_forms.specs.Ranges.{CanBeRead};
ghost use Rattle.code_forms.specs.Same.{bare, IsSameCode};
ghost use Rattle.code_forms.specs.Valid.{AreValid, HaveDepths, IsFirstFaultOf, Valid, IsFirstFault};

use crate::bad_code::BadCode;
use crate::module_code::{CodeLink, CodeSignal, ModuleCode};
use crate::procedures::CodeProcedures;
use crate::valid_code::ValidCode;

// Looks at each procedure.
fn settle_procedures(
    procedures: &mut CodeProcedures,
    globals: u16,
    strings: usize,
    signals: &[CodeSignal],
    links: &[CodeLink],
) -> Result<(), BadCode>
    requires few { length procedures.old < 2 ^ 32 }
    requires ranges { All CanBeRead procedures.old }
    ensures same { bare procedures.new ≡ bare procedures.old }
    ensures valid { OnOk result (AreValid globals strings signals.now links.now procedures.old (length procedures.old)) }
    ensures depths { OnOk result (HaveDepths globals strings signals.now links.now procedures.new (length procedures.new)) }
    ensures err { IfErr result (IsFirstFaultOf globals strings signals.now links.now procedures.old) }
{
    for number in 0..procedures.len() {
        match procedures.settle(number, globals, strings, signals, links) {
            Ok(()) => {}
            Err(fault) => {
                return Err(BadCode {
                    procedure: number as u32,
                    fault,
                });
            }
        }
    }
    Ok(())
}

/// Valid code, with the depth beside each instruction; else the first procedure with a fault, and that fault: of the
/// phrases in their order, or else at the least offset, `BadJump` before `StackDiffers` before `BadOperand`. It takes
/// no memory.
pub fn validate(code: ModuleCode) -> Result<ValidCode, BadCode>
    ensures same { IfOk result (λ valid. IsSameCode valid code) }
    ensures valid { OnOk result (Valid code) }
    ensures err { IfErr result (IsFirstFault code) }
{
    let ModuleCode {
        name,
        global_words,
        signals,
        strings,
        links,
        mut procedures,
    } = code;
    match settle_procedures(
        &mut procedures,
        global_words,
        strings.len(),
        signals.as_slice(),
        links.as_slice(),
    ) {
        Ok(()) => {}
        Err(bad) => return Err(bad),
    }
    Ok(ValidCode::new(ModuleCode {
        name,
        global_words,
        signals,
        strings,
        links,
        procedures,
    }))
}
