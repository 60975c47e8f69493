//! The run of the topmost activation, up to an instruction that touches more.

ghost use Rattle.std.specs.Prelude.{◌≡◌, ◌+◌, ◌-◌, ◌*◌, ◌<◌, ◌≤◌, length, Some, slice_get};
ghost use Rattle.code_forms.specs.declared.module_code.CodeEntry.{CodeEntry};
ghost use Rattle.code_forms.specs.Valid.{Valid, HasDepths};
ghost use Rattle.machine_rules.specs.LookUps.{text_of};
ghost use Rattle.machine_topmost.specs.Running.{FlatPauses, HasTargets, IsProcedureOf, Standing};

use crate::perform::perform;
use crate::registers::{Pause, Registers};
use crate::routine::Routine;
use mesa_base::Steps;
use std::sync::ledger::Ledger;

/// Runs the topmost activation in its procedure until an instruction that touches more than it or that cannot go on. One
/// step is counted for each instruction begun, that one included; no memory is taken.
pub fn quiet<L: Ledger>(
    routine: &Routine,
    region: &mut [u16],
    globals: &mut [u16],
    registers: Registers,
    bound: u64,
    steps: &mut Steps<L>,
) -> Pause
    requires valid { Valid routine.now.code.now }
    requires depths { HasDepths routine.now.code.now }
    requires part { IsProcedureOf routine.now.code.now routine.now.procedure.now }
    requires leads { HasTargets routine.now.procedure.now.code routine.now.targets.now }
    requires number { routine.now.number < 65535 }
    requires standing { Standing routine.now.code.now routine.now.procedure.now (length region.old) (length globals.old) routine.now.floor registers }
    ensures pauses { FlatPauses (text_of routine.now.image.now) routine.now.number routine.now.procedure.now.code routine.now.targets.now
        (record { region = region.old; globals = globals.old; registers = registers; turns = bound }) (steps.new - steps.old) result.why
        (record { region = region.new; globals = globals.new; registers = result.registers; turns = result.turns }) }
    ensures at { (e : CodeEntry) → slice_get routine.now.procedure.now.code result.registers.entry ≡ Some e → e.instruction ≡ result.instruction }
    ensures counted { steps.old ≤ steps.new }
    ensures turns_fall { result.turns ≤ bound }
    ensures stays { (result.registers.top ≡ registers.top) × (result.registers.slots ≡ registers.slots) }
    ensures standing { Standing routine.now.code.now routine.now.procedure.now (length region.new) (length globals.new) routine.now.floor result.registers }
{
    let entries = routine.procedure.code.as_slice();
    let targets = routine.targets;
    let mut r = registers;
    let mut turns = bound;
    'running: loop {
        let entry = &entries[r.entry];
        steps.tick();
        if let Some(why) = perform(
            &entry.instruction,
            targets,
            routine,
            region,
            globals,
            &mut r,
            &mut turns,
        ) {
            return Pause {
                registers: r,
                turns,
                why,
                instruction: entry.instruction,
            };
        }
    }
}
