//! Calls through links.

ghost use Rattle.std.specs.Prelude.{◌≡◌, ℕ, suc, ◌<◌, ◌≤◌, length, IfSome};
ghost use Rattle.code_forms.specs.declared.instruction.Instruction.TheVariants.{CallLink};
ghost use Rattle.machine_rules.specs.Calls.{call as called_with, call_bound as bound_call};
ghost use Rattle.machine_rules.specs.Moves.{spend};
ghost use Rattle.machine_rules.specs.State.{Stepped, Store};
ghost use Rattle.machine_activations.specs.Calling.{AddsFrame, CallsThen, LeadsTo, StandsIn};
ghost use Rattle.machine_activations.specs.Reaching.{IsUnstuck, Reaches, Shown};
ghost use Rattle.machine_activations.specs.Shows.{IsPrepared};
ghost use Rattle.machine_activations.specs.Stacks.{HasRoom, KeepsRoom, on};
ghost use Rattle.machine_calls.specs.Hosting.{writing_in};
ghost use Rattle.machine_calls.specs.Linking.{AddsFrameForLink, CallsLink, CallsWriting, EntersBody, KeepsRoomForLink, LinkedTo, StandsAt, StandsSomewhere, WaitsToCall};
ghost use Rattle.machine_calls.specs.Started.{ShowsStarted};

use crate::host::{HostProcedure, Writing, host_of};
use crate::look_ups::{bound_to, is_started, link_called, procedure_of};
use code_forms::Instruction;
use machine_activations::{Sequel, Stack, add_frame, row_of};
use machine_rules::End;
use machine_topmost::Registers;
use object_files::{Image, Link};

/// What a call through a link leads to.
#[derive(Clone, Copy)]
pub enum LinkSequel {
    /// What other instructions lead to.
    Done(Sequel),
    /// The topmost activation calls this procedure of the host; the turn for that is spent.
    Host(HostProcedure),
}

// Starts an instance for a call of the topmost activation: a turn is spent, and the frame of its body is made.
#[inline(always)]
fn start_first(
    image: &Image,
    instance: u32,
    stack: &mut Stack,
    r: Registers,
    turns: &mut u64,
) -> Sequel
    requires prepared { IsPrepared image.now stack.old.layout }
    requires enters { on stack.old (EntersBody image.now) r instance }
    requires room { HasRoom stack.old r.top }
    ensures room { KeepsRoom stack.old stack.new result }
    ensures adds { AddsFrame stack.old.layout stack.old.rows.items r stack.new.rows.items result }
    ensures turns_fall { turns.new ≤ turns.old }
    ensures leads { (b : on stack.old (EntersBody image.now) r instance) (s : Stepped) (m : Store) → m.turns ≡ turns.old
        → Reaches image.now s (spend m (λ m1. called_with instance 0 b.body b.enters.top b.enters.rest m1))
        → on stack.new (LeadsTo image.now) s (record m { turns = turns.new }) result }
{
    if *turns == 0 {
        return Sequel::Ends(End::Spent);
    }
    *turns -= 1;
    let body = procedure_of(image, instance, 0);
    add_frame(body, instance, 0, stack, r)
}

// Calls what the link of this number of the topmost activation's instance is bound to; the turn is spent.
#[inline(always)]
fn call_bound(
    image: &Image,
    number: u32,
    started: &mut [bool],
    stack: &mut Stack,
    r: Registers,
    turns: &mut u64,
) -> LinkSequel
    requires prepared { IsPrepared image.now stack.old.layout }
    requires calls { on stack.old (CallsLink image.now) r number }
    requires marks { length started.old ≡ length image.now.instances }
    requires room { HasRoom stack.old r.top }
    ensures marks { length started.new ≡ length started.old }
    ensures room { KeepsRoomForLink stack.old stack.new r result }
    ensures adds { AddsFrameForLink stack.old.layout stack.old.rows.items r stack.new.rows.items result }
    ensures turns_fall { turns.new ≤ turns.old }
    ensures leads { (e : on stack.old (CallsLink image.now) r number) (s : Stepped) (m : Store) → m.turns ≡ turns.old
        → ShowsStarted started.old m.started → Reaches image.now s (bound_call image.now e.bound e.top e.rest m)
        → on stack.new (LinkedTo image.now) r started.new s (record m { turns = turns.new }) result }
{
    let caller = row_of(stack, r.top).instance;
    match bound_to(image, caller, number) {
        Link::Wanted(wanted) => LinkSequel::Host(host_of(image, wanted)),
        Link::To { instance, number } => {
            if is_started(started, caller, instance) {
                let called = procedure_of(image, instance, number);
                return LinkSequel::Done(add_frame(called, instance, number, stack, r));
            }
            started[instance as usize] = true;
            LinkSequel::Done(start_first(image, instance, stack, r, turns))
        }
    }
}

/// Calls what the link of this number of the topmost activation's instance is bound to. A turn is spent. A procedure of
/// another instance that was not started is not called yet: that instance is started above the call, which costs another
/// turn and marks it; when its body returns, the call is done again (`call_again`). A procedure of the host is told.
#[inline(always)]
pub fn call_link(
    image: &Image,
    number: u32,
    started: &mut [bool],
    stack: &mut Stack,
    r: Registers,
    turns: &mut u64,
) -> LinkSequel
    requires prepared { IsPrepared image.now stack.old.layout }
    requires stands { on stack.old (StandsIn image.now) r }
    requires at { StandsAt image.now stack.old.rows.items r (CallLink number) }
    requires marks { length started.old ≡ length image.now.instances }
    requires room { HasRoom stack.old r.top }
    ensures marks { length started.new ≡ length started.old }
    ensures room { KeepsRoomForLink stack.old stack.new r result }
    ensures adds { AddsFrameForLink stack.old.layout stack.old.rows.items r stack.new.rows.items result }
    ensures turns_fall { turns.new ≤ turns.old }
    ensures leads { (s : Stepped) (m : Store) → m.turns ≡ turns.old → ShowsStarted started.old m.started
        → on stack.old (Shown image.now) r s m
        → on stack.new (LinkedTo image.now) r started.new s (record m { turns = turns.new; begun = suc m.begun }) result }
{
    if *turns == 0 {
        return LinkSequel::Done(Sequel::Ends(End::Spent));
    }
    *turns -= 1;
    call_bound(image, number, started, stack, r, turns)
}

/// Does the call for which an instance was started first; no turn is spent for it.
pub fn call_again(
    image: &Image,
    started: &mut [bool],
    stack: &mut Stack,
    r: Registers,
    turns: &mut u64,
) -> LinkSequel
    requires prepared { IsPrepared image.now stack.old.layout }
    requires waits { on stack.old (WaitsToCall image.now) r }
    requires marks { length started.old ≡ length image.now.instances }
    requires room { HasRoom stack.old r.top }
    ensures marks { length started.new ≡ length started.old }
    ensures room { KeepsRoomForLink stack.old stack.new r result }
    ensures adds { AddsFrameForLink stack.old.layout stack.old.rows.items r stack.new.rows.items result }
    ensures turns_fall { turns.new ≤ turns.old }
    ensures leads { (s : Stepped) (m : Store) → m.turns ≡ turns.old → ShowsStarted started.old m.started → IsUnstuck image.now s
        → on stack.old (CallsThen image.now) r s m
        → on stack.new (LinkedTo image.now) r started.new s (record m { turns = turns.new }) result }
{
    let row = row_of(stack, r.top);
    let procedure = procedure_of(image, row.instance, row.procedure);
    let number = link_called(procedure, r.entry);
    call_bound(image, number, started, stack, r, turns)
}

/// The procedure of the host that writes, which an activation of this instance calls through a link, where it stands at such
/// a call and a turn is left for that.
#[inline(always)]
pub fn writing_called(
    image: &Image,
    instance: u32,
    instruction: Instruction,
    turns: u64,
) -> Option<Writing>
    requires { StandsSomewhere image.now instance instruction }
    ensures is { result ≡ writing_in image.now instance turns instruction }
    ensures calls { (there : StandsSomewhere image.now instance instruction)
        → IfSome result (CallsWriting image.now there.layout there.region there.table there.r turns) }
    ensures some { IfSome result (λ writing. 0 < turns) }
{
    let Instruction::CallLink { link } = instruction else {
        return None;
    };
    let Link::Wanted(wanted) = bound_to(image, instance, link) else {
        return None;
    };
    if turns == 0 {
        return None;
    }
    match host_of(image, wanted) {
        HostProcedure::Write(writing) => Some(writing),
        HostProcedure::Read(_) => None,
    }
}
