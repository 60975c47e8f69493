//! The look at a whole procedure, which writes the depths beside its instructions.
ghost use Rattle.std.specs.Prelude.{◌≡◌, ℕ, ◌+◌, ◌<◌, ◌≤◌, length, All, OnOk, IfErr, Some, slice_get};
ghost use Rattle.code_forms.specs.declared.limits.TheConstants.{STACK_WORDS};
ghost use Rattle.code_forms.specs.Around.{routine_around};
ghost use Rattle.code_forms.specs.Depths.{DepthsAreSettled};
ghost use Rattle.code_forms.specs.Marks.{unsettled, Marked, settled_at};
ghost use Rattle.code_forms.specs.Phrases.{PhrasesFill};
ghost use Rattle.code_forms.specs.Ranges.{InOrder};
ghost use Rattle.code_forms.specs.Rising.{RegionsRise, FromsFirst};
ghost use Rattle.code_forms.specs.Routine.{Spot, spots};
ghost use Rattle.code_forms.specs.Valid.{SpotIsRight, SpotsAreRight, FaultAt, FirstFault, RoutineIsValid};

use crate::around::Around;
use crate::bad_code::CodeFault;
use crate::catching::bad_phrase;
use crate::judging::judge;
use crate::module_code::{CodeEntries, CodeEntry};
use crate::stack::UNSETTLED;

// Writes the depth beside the instruction, where none is there yet.
fn settle(code: &mut CodeEntries, at: Option<usize>, depth: u32)
    ensures { code.new ≡ settled_at code.old at depth }
{
    let Some(number) = at else {
        return;
    };
    let Some(entry) = code.get(number).copied() else {
        return;
    };
    if entry.depth == UNSETTLED {
        code.set(
            number,
            CodeEntry {
                at: entry.at,
                depth,
                instruction: entry.instruction,
            },
        );
    }
}

// Takes away what stands beside the instructions.
fn unsettle(code: &mut CodeEntries)
    ensures same { spots code.new ≡ spots code.old }
    ensures none { All (λ e. e.depth ≡ unsettled) code.new }
{
    for number in 0..code.len() {
        let entry = code.as_slice()[number];
        code.set(
            number,
            CodeEntry {
                at: entry.at,
                depth: UNSETTLED,
                instruction: entry.instruction,
            },
        );
    }
}

// Looks at one instruction, and writes its depth and that of those to which it leads.
fn settle_one(around: &Around, code: &mut CodeEntries, i: usize) -> Result<(), CodeFault>
    requires order { InOrder code.old }
    requires rise { RegionsRise around.now.phrases.now }
    requires froms { FromsFirst around.now.phrases.now }
    requires small { around.now.room ≤ STACK_WORDS }
    requires there { i < length code.old }
    requires marked { Marked (routine_around around.now (spots code.old)) i i code.old }
    ensures same { spots code.new ≡ spots code.old }
    ensures right { OnOk result ((spot : Spot) → slice_get (spots code.old) i ≡ Some spot → SpotIsRight (routine_around around.now (spots code.old)) i spot) }
    ensures marked { OnOk result (Marked (routine_around around.now (spots code.old)) (i + 1) (i + 1) code.new) }
    ensures err { IfErr result (λ fault. (spot : Spot) → slice_get (spots code.old) i ≡ Some spot → FaultAt (routine_around around.now (spots code.old)) i spot fault) }
{
    settle(code, Some(i), 0);
    let entry = code.as_slice()[i];
    let onward = match judge(around, code.as_slice(), i, entry) {
        Ok(onward) => onward,
        Err(fault) => return Err(fault),
    };
    settle(code, onward.next, onward.depth);
    settle(code, onward.target, onward.depth);
    Ok(())
}

// Looks at each instruction, in order of offset.
fn settle_all(around: &Around, code: &mut CodeEntries) -> Result<(), CodeFault>
    requires order { InOrder code.old }
    requires rise { RegionsRise around.now.phrases.now }
    requires froms { FromsFirst around.now.phrases.now }
    requires small { around.now.room ≤ STACK_WORDS }
    requires fill { PhrasesFill (spots code.old) around.now.phrases.now }
    ensures same { spots code.new ≡ spots code.old }
    ensures right { OnOk result (SpotsAreRight (routine_around around.now (spots code.old)) (length code.old)) }
    ensures depths { OnOk result (DepthsAreSettled (routine_around around.now (spots code.old)) code.new) }
    ensures err { IfErr result (FirstFault (routine_around around.now (spots code.old))) }
{
    unsettle(code);
    for number in 0..code.len() {
        match settle_one(around, code, number) {
            Ok(()) => {}
            Err(fault) => return Err(fault),
        }
    }
    Ok(())
}

/// Looks at the phrases and then at each instruction of a procedure, and writes the depths.
pub fn settle_procedure(around: &Around, code: &mut CodeEntries) -> Result<(), CodeFault>
    requires order { InOrder code.old }
    requires armed { All (λ p. 0 < length p.arms) around.now.phrases.now }
    requires small { around.now.room ≤ STACK_WORDS }
    ensures same { spots code.new ≡ spots code.old }
    ensures valid { OnOk result (RoutineIsValid (routine_around around.now (spots code.old))) }
    ensures depths { OnOk result (DepthsAreSettled (routine_around around.now (spots code.old)) code.new) }
    ensures err { IfErr result (FirstFault (routine_around around.now (spots code.old))) }
{
    if let Some(from) = bad_phrase(code.as_slice(), around.phrases) {
        return Err(CodeFault::CatchRange(from));
    }
    match settle_all(around, code) {
        Ok(()) => Ok(()),
        Err(fault) => Err(fault),
    }
}
