//! Where jumps out of arms arrive.

ghost use Rattle.std.specs.Prelude.{◌≡◌, ◌+◌, ◌*◌, ◌≤◌, Some, None, IfSome, length};
ghost use Rattle.code_forms.specs.declared.module_code.CodeProcedure.{CodeProcedure};
ghost use Rattle.machine_rules.specs.LookUps.{procedure_of};
ghost use Rattle.machine_rules.specs.State.{Stepped, Store};
ghost use Rattle.machine_activations.specs.Calling.{LeadsTo};
ghost use Rattle.machine_activations.specs.Frames.{owner_place, row_at};
ghost use Rattle.machine_activations.specs.Reaching.{IsUnstuck};
ghost use Rattle.machine_activations.specs.Shows.{IsPrepared};
ghost use Rattle.machine_activations.specs.Stacks.{HasRoom, KeepsRoom, on};
ghost use Rattle.machine_signals.specs.Leaving.{Arrives, CanArrive, StaysLow, emptied};
ghost use Rattle.machine_signals.specs.Raising.{FindsNone};

use crate::lookups::{entry_at, procedure_at};
use machine_activations::{Row, Sequel, Stack, give, owner_of, row_of};
use machine_topmost::Registers;
use object_files::Image;

/// The activation of this row and place goes on at an entry without operands.
fn empty_at(stack: &Stack, row: Row, place: usize, entry: usize) -> Registers
    requires room { place * stack.now.layout.part + stack.now.layout.frame ≤ length stack.now.region.items }
    requires owner { owner_place row.kind place * stack.now.layout.part ≤ length stack.now.region.items }
    ensures { result ≡ emptied row place stack.now.layout entry }
{
    let layout = stack.layout;
    Registers {
        top: place,
        slots: owner_of(row.kind, place) * layout.part,
        sp: place * layout.part + layout.frame,
        entry,
    }
}

/// The activation at a place goes on at an offset without operands.
fn go_to(image: &Image, offset: u32, place: usize, stack: &Stack) -> Sequel
    requires prepared { IsPrepared image.now stack.now.layout }
    requires room { HasRoom stack.now place }
    requires goal { (p : CodeProcedure)
        → procedure_of image.now (row_at stack.now.rows.items place).instance (row_at stack.now.rows.items place).procedure ≡ Some p
        → FindsNone p offset }
    requires arrives { on stack.now (CanArrive image.now) place (Some offset) }
    ensures room { KeepsRoom stack.now stack.now result }
    ensures low { StaysLow place result }
    ensures leads { (s : Stepped) (m : Store) → on stack.now (Arrives image.now) place (Some offset) s m
        → on stack.now (LeadsTo image.now) s m result }
{
    let row = row_of(stack, place);
    let procedure = procedure_at(image, row.instance, row.procedure);
    let entry = entry_at(procedure.code.as_slice(), offset);
    Sequel::Goes(empty_at(stack, row, place, entry))
}

/// The frame at a place returns: the activation under it is given the results and goes on; after a body, which was started
/// for a call, it does that call.
fn return_from(image: &Image, place: usize, stack: &mut Stack) -> Sequel
    requires prepared { IsPrepared image.now stack.old.layout }
    requires room { HasRoom stack.old place }
    requires arrives { on stack.old (CanArrive image.now) place None }
    ensures room { KeepsRoom stack.old stack.new result }
    ensures rows { stack.new.rows.items ≡ stack.old.rows.items }
    ensures low { StaysLow place result }
    ensures leads { (s : Stepped) (m : Store) → IsUnstuck image.now s
        → on stack.old (Arrives image.now) place None s m
        → on stack.new (LeadsTo image.now) s m result }
{
    if place == 0 {
        return Sequel::Empty;
    }
    let row = row_of(stack, place);
    let procedure = procedure_at(image, row.instance, row.procedure);
    let layout = stack.layout;
    let from = place * layout.part + usize::from(procedure.args);
    let under = place - 1;
    let below = row_of(stack, under);
    let region = &mut stack.region;
    if row.procedure == 0 {
        return Sequel::Pending(give(region, below, under, layout, from, 0, below.entry));
    }
    let results = usize::from(procedure.results);
    Sequel::Goes(give(region, below, under, layout, from, results, below.entry + 1))
}

/// A jump has arrived at a place: the activation there goes on at its offset, or returns.
pub(crate) fn arrive(image: &Image, goal: Option<u32>, place: usize, stack: &mut Stack) -> Sequel
    requires prepared { IsPrepared image.now stack.old.layout }
    requires room { HasRoom stack.old place }
    requires goal { (p : CodeProcedure)
        → procedure_of image.now (row_at stack.old.rows.items place).instance (row_at stack.old.rows.items place).procedure ≡ Some p
        → IfSome goal (FindsNone p) }
    requires arrives { on stack.old (CanArrive image.now) place goal }
    ensures room { KeepsRoom stack.old stack.new result }
    ensures rows { stack.new.rows.items ≡ stack.old.rows.items }
    ensures low { StaysLow place result }
    ensures leads { (s : Stepped) (m : Store) → IsUnstuck image.now s
        → on stack.old (Arrives image.now) place goal s m
        → on stack.new (LeadsTo image.now) s m result }
{
    match goal {
        Some(offset) => go_to(image, offset, place, stack),
        None => return_from(image, place, stack),
    }
}
