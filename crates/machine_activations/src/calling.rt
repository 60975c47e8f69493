//! Calls within an instance, and returns.

ghost use Rattle.std.specs.Prelude.{◌≡◌, suc, ◌≤◌};
ghost use Rattle.code_forms.specs.declared.instruction.Instruction.TheVariants.{Call, Return};
ghost use Rattle.object_files.specs.declared.image.Image.{Image};
ghost use Rattle.machine_rules.specs.State.{Stepped, Store};
ghost use Rattle.machine_activations.specs.Calling.{AddsFrame, GoesBelow, IsAt, IsCodeOf, LeadsTo, Stands};
ghost use Rattle.machine_activations.specs.Reaching.{IsUnstuck, Shown};
ghost use Rattle.machine_activations.specs.Shows.{IsPrepared};
ghost use Rattle.machine_activations.specs.Stacks.{HasRoom, KeepsRoom, on};

use crate::frames::give;
use crate::framing::add_frame;
use crate::stack::{Stack, row_of};
use code_forms::ModuleCode;
use machine_rules::End;
use machine_topmost::Registers;

/// What an instruction that touches more than the topmost activation leads to.
#[derive(Clone, Copy)]
pub enum Sequel {
    /// This activation is on top and goes on.
    Goes(Registers),
    /// No activation is left.
    Empty,
    /// This activation is on top, and does the call for which an instance had to be started first.
    Pending(Registers),
    /// The run ends.
    Ends(End),
}

/// Calls the procedure of this number of the topmost activation's instance, whose code this is: a turn is spent, and one
/// activation more is made.
#[inline(always)]
pub fn call(
    code: &ModuleCode,
    number: u32,
    stack: &mut Stack,
    r: Registers,
    turns: &mut u64,
) -> Sequel
    requires stands { on stack.old (Stands code.now) r }
    requires room { HasRoom stack.old r.top }
    requires at { IsAt code.now stack.old.rows.items r (Call number) }
    ensures room { KeepsRoom stack.old stack.new result }
    ensures adds { AddsFrame stack.old.layout stack.old.rows.items r stack.new.rows.items result }
    ensures turns_fall { turns.new ≤ turns.old }
    ensures leads { (image : Image) → IsPrepared image stack.old.layout → IsCodeOf image code.now stack.old.rows.items r
        → (s : Stepped) (m : Store) → m.turns ≡ turns.old → on stack.old (Shown image) r s m
        → on stack.new (LeadsTo image) s (record m { turns = turns.new; begun = suc m.begun }) result }
{
    if *turns == 0 {
        return Sequel::Ends(End::Spent);
    }
    *turns -= 1;
    let called = &code.procedures.as_slice()[number as usize];
    let instance = row_of(stack, r.top).instance;
    add_frame(called, instance, number, stack, r)
}

/// Returns from the topmost activation, a frame, whose code this is: the activation below is given the results and goes
/// on; after a body, which was started for a call, it does that call.
#[inline(always)]
pub fn give_back(code: &ModuleCode, stack: &mut Stack, r: Registers) -> Sequel
    requires stands { on stack.old (Stands code.now) r }
    requires room { HasRoom stack.old r.top }
    requires at { IsAt code.now stack.old.rows.items r Return }
    ensures room { KeepsRoom stack.old stack.new result }
    ensures rows { stack.new.rows ≡ stack.old.rows }
    ensures below { GoesBelow r result }
    ensures leads { (image : Image) → IsPrepared image stack.old.layout → IsCodeOf image code.now stack.old.rows.items r
        → (s : Stepped) (m : Store) → IsUnstuck image s → on stack.old (Shown image) r s m
        → on stack.new (LeadsTo image) s (record m { begun = suc m.begun }) result }
{
    if r.top == 0 {
        return Sequel::Empty;
    }
    let row = row_of(stack, r.top);
    let procedure = &code.procedures.as_slice()[row.procedure as usize];
    let layout = stack.layout;
    let place = r.top - 1;
    let below = row_of(stack, place);
    let region = &mut stack.region;
    let from = r.slots + usize::from(procedure.args);
    if row.procedure == 0 {
        return Sequel::Pending(give(region, below, place, layout, from, 0, below.entry));
    }
    let results = usize::from(procedure.results);
    Sequel::Goes(give(region, below, place, layout, from, results, below.entry + 1))
}
