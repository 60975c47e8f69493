//! How the arms of a procedure are entered.

ghost use Rattle.std.specs.Prelude.{List, ◌++◌, IfOk, OnOk};
ghost use Rattle.std.specs.List.{AllZip};
ghost use Rattle.code_forms.specs.declared.module_code.Arm.{Arm};
ghost use Rattle.code_forms.specs.Ranges.{InOrder};
ghost use Rattle.machine_ready.specs.Openings.{IsOpening, arms_in};

use crate::targets::entry_at;
use code_forms::{Arm, CodeEntry, Phrase};
use mesa_base::{List, OutOfMemory};
use std::alloc::Global;

/// How an arm is entered: the number of the instruction that begins its region, and where its parameters go in its frame.
#[derive(Clone, Copy)]
pub struct Opening {
    pub entry: u32,
    pub slot: u16,
    pub words: u16,
}

fn opening_of(code: &[CodeEntry], arm: &Arm) -> Opening
    requires { InOrder code.now }
    ensures { IsOpening code.now arm.now result }
{
    Opening {
        entry: entry_at(code, arm.start),
        slot: arm.slot,
        words: arm.words,
    }
}

// Adds those of the arms of one phrase.
fn add_openings(
    code: &[CodeEntry],
    arms: &[Arm],
    openings: &mut List<Opening>,
) -> Result<(), OutOfMemory>
    requires { InOrder code.now }
    ensures { (before : List Arm) → AllZip (IsOpening code.now) before openings.old
        → OnOk result (AllZip (IsOpening code.now) (before ++ arms.now) openings.new) }
{
    for arm in arms {
        openings.push(opening_of(code, arm))?;
    }
    Ok(())
}

/// Those of the arms of a procedure, as arms are numbered. Each finds its first instruction by halving.
pub fn openings_of(
    alloc: Global,
    code: &[CodeEntry],
    phrases: &[Phrase],
) -> Result<List<Opening>, OutOfMemory>
    requires { InOrder code.now }
    ensures { IfOk result (AllZip (IsOpening code.now) (arms_in phrases.now)) }
{
    let mut openings = List::new(alloc);
    for phrase in phrases {
        add_openings(code, phrase.arms.as_slice(), &mut openings)?;
    }
    Ok(openings)
}
