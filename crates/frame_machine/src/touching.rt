//! The instructions that touch more than the topmost activation.

ghost use Rattle.std.specs.Prelude.{◌≡◌, suc, ◌≤◌, false};
ghost use Rattle.machine_rules.specs.State.{Stepped, Store};
ghost use Rattle.machine_topmost.specs.declared.registers.Why.TheVariants.{Touches};
ghost use Rattle.machine_activations.specs.Calling.{IsAmpleFor, LeadsTo, StandsIn};
ghost use Rattle.machine_activations.specs.Reaching.{IsUnstuck};
ghost use Rattle.machine_activations.specs.Shows.{IsAmple};
ghost use Rattle.machine_activations.specs.Stacks.{on};
ghost use Rattle.machine_ready.specs.Ready.{IsReady};
ghost use Rattle.machine_calls.specs.declared.linking.LinkSequel.TheVariants.{Done};
ghost use Rattle.machine_calls.specs.Linking.{IsAmpleForLink, LinkedTo, StandsAt};
ghost use Rattle.machine_calls.specs.Started.{ShowsStarted};
ghost use Rattle.machine_signals.specs.Raising.{ArmsHold, HoldsOn};
ghost use Rattle.frame_machine.specs.Happening.{CanPause, HoldsOnLink, is_call, linked_or};
ghost use Rattle.frame_machine.specs.SoFar.{PausesAt};

use crate::standing::top_code;
use code_forms::Instruction;
use machine_activations::{Sequel, call, give_back};
use machine_calls::{LinkSequel, call_link};
use machine_ready::Prepared;
use machine_signals::{leave, raise_host, raise_linked, raise_own, reject, resume};
use machine_topmost::Registers;
use object_files::Image;

// What the instruction leads to, at which the topmost activation stands and which neither calls nor returns.
#[inline(always)]
fn signal(
    image: &Image,
    parts: &mut Prepared,
    instruction: Instruction,
    r: Registers,
    turns: &mut u64,
) -> Sequel
    requires ready { IsReady image.now parts.old }
    requires ample { on parts.old.stack IsAmple r.top }
    requires arms { ArmsHold image.now parts.old.stack.rows.items r.top }
    requires stands { on parts.old.stack (StandsIn image.now) r }
    requires pauses { CanPause image.now parts.old r Touches }
    requires at { StandsAt image.now parts.old.stack.rows.items r instruction }
    requires no_call { is_call instruction ≡ false }
    ensures ready { IsReady image.now parts.new }
    ensures ample { on parts.new.stack IsAmpleFor result }
    ensures arms { HoldsOn image.now parts.new.stack.rows.items result }
    ensures globals { parts.new.globals.items ≡ parts.old.globals.items }
    ensures marks { parts.new.started.items ≡ parts.old.started.items }
    ensures turns_fall { turns.new ≤ turns.old }
    ensures leads { (s : Stepped) (m : Store) → m.turns ≡ turns.old → IsUnstuck image.now s
        → on parts.old.stack (PausesAt image.now) r Touches s m
        → on parts.new.stack (LeadsTo image.now) s (record m { turns = turns.new; begun = suc m.begun }) result }
{
    let code = top_code(image, &parts.stack, r);
    let tables = &parts.tables;
    let stack = &mut parts.stack;
    match instruction {
        Instruction::Raise { signal } => raise_own(image, tables, code, signal, stack, r, turns),
        Instruction::RaiseLink { link } => {
            raise_linked(image, tables, code, link, stack, r, turns)
        }
        Instruction::RaiseHost { fault } => {
            raise_host(image, tables, code, fault, stack, r, turns)
        }
        Instruction::ArmEnd => reject(image, tables, stack, r, turns),
        Instruction::Resume { words } => resume(image, tables, code, words, stack, r, turns),
        Instruction::Leave { target, .. } => leave(image, tables, Some(target), stack, r, turns),
        Instruction::LeaveReturn { .. } => leave(image, tables, None, stack, r, turns),
        // The run of the topmost activation has done each other one.
        _ => unreachable!(),
    }
}

/// Where an activation goes on, the registers are its; else what comes next is given.
#[inline(always)]
pub(crate) fn settle(sequel: Sequel, r: &mut Registers) -> Option<LinkSequel>
    ensures { linked_or result r.new ≡ Done sequel }
{
    match sequel {
        Sequel::Goes(after) => {
            *r = after;
            None
        }
        _ => Some(LinkSequel::Done(sequel)),
    }
}

// The same of a call through a link.
#[inline(always)]
fn settle_link(sequel: LinkSequel, r: &mut Registers) -> Option<LinkSequel>
    ensures { linked_or result r.new ≡ sequel }
{
    match sequel {
        LinkSequel::Done(sequel) => settle(sequel, r),
        LinkSequel::Host(host) => Some(LinkSequel::Host(host)),
    }
}

/// What the instruction leads to, at which the topmost activation stands and which touches more than that activation: the
/// registers are those of the activation that goes on, unless something else is told.
#[inline(always)]
pub(crate) fn touch(
    image: &Image,
    parts: &mut Prepared,
    instruction: Instruction,
    r: &mut Registers,
    turns: &mut u64,
) -> Option<LinkSequel>
    requires ready { IsReady image.now parts.old }
    requires ample { on parts.old.stack IsAmple r.old.top }
    requires arms { ArmsHold image.now parts.old.stack.rows.items r.old.top }
    requires pauses { CanPause image.now parts.old r.old Touches }
    requires at { StandsAt image.now parts.old.stack.rows.items r.old instruction }
    ensures ready { IsReady image.now parts.new }
    ensures ample { on parts.new.stack IsAmpleForLink r.old (linked_or result r.new) }
    ensures arms { HoldsOnLink image.now parts.new.stack.rows.items r.old (linked_or result r.new) }
    ensures globals { parts.new.globals.items ≡ parts.old.globals.items }
    ensures turns_fall { turns.new ≤ turns.old }
    ensures leads { (s : Stepped) (m : Store) → m.turns ≡ turns.old → ShowsStarted parts.old.started.items m.started → IsUnstuck image.now s
        → on parts.old.stack (PausesAt image.now) r.old Touches s m
        → on parts.new.stack (LinkedTo image.now) r.old parts.new.started.items s
        (record m { turns = turns.new; begun = suc m.begun }) (linked_or result r.new) }
{
    let at = *r;
    match instruction {
        Instruction::Call { procedure } => {
            let code = top_code(image, &parts.stack, at);
            let called = call(code, procedure, &mut parts.stack, at, turns);
            settle(called, r)
        }
        Instruction::CallLink { link } => {
            let started = parts.started.as_mut_slice();
            let linked = call_link(image, link, started, &mut parts.stack, at, turns);
            settle_link(linked, r)
        }
        Instruction::Return => {
            let code = top_code(image, &parts.stack, at);
            let returned = give_back(code, &mut parts.stack, at);
            settle(returned, r)
        }
        _ => {
            let sequel = signal(image, parts, instruction, at, turns);
            settle(sequel, r)
        }
    }
}
