//! Raises: of instructions, and in their place where one cannot go on.

ghost use Rattle.std.specs.Prelude.{◌≡◌, suc, ◌≤◌, Some};
ghost use Rattle.code_forms.specs.declared.instruction.Instruction.TheVariants.{Raise, RaiseHost, RaiseLink};
ghost use Rattle.machine_rules.specs.State.{Stepped, Store};
ghost use Rattle.machine_rules.specs.Steps.{host_signal};
ghost use Rattle.machine_activations.specs.Calling.{IsAt, IsCodeOf, LeadsTo, StandsIn};
ghost use Rattle.machine_activations.specs.Reaching.{Shown};
ghost use Rattle.machine_activations.specs.Stacks.{HasRoom, KeepsRoom, on};
ghost use Rattle.machine_signals.specs.Indexed.{AreTables};
ghost use Rattle.machine_signals.specs.Raising.{ArmsHold, CanRaise, HoldsOn, Raises, RunsArm, raised_by};

use crate::asking::around;
use crate::seeking::{RaisedSignal, seek_arm};
use code_forms::ModuleCode;
use machine_activations::{Sequel, Stack, row_of, wait};
use machine_ready::Tables;
use machine_rules::End;
use machine_topmost::Registers;
use object_files::{Image, Link};
use signaller::SignalId;

/// The topmost activation raises a signal, with so many of its operands as arguments: a turn is spent, the phrases are
/// asked from the innermost outward, and the arm that catches it is run; or the run ends. A fault of an instruction and
/// the host's signal at the end of the input are raised with none.
#[inline(always)]
pub fn raise(
    image: &Image,
    tables: &Tables,
    signal: SignalId,
    args: usize,
    stack: &mut Stack,
    r: Registers,
    turns: &mut u64,
) -> Sequel
    requires tables { AreTables image.now stack.old.layout tables.now }
    requires room { HasRoom stack.old r.top }
    requires raises { on stack.old (CanRaise image.now) r signal args }
    ensures room { KeepsRoom stack.old stack.new result }
    ensures turns_fall { turns.new ≤ turns.old }
    ensures arms { ArmsHold image.now stack.old.rows.items r.top → HoldsOn image.now stack.new.rows.items result }
    ensures runs { RunsArm result }
    ensures leads { (s : Stepped) (m : Store) → m.turns ≡ turns.old
        → on stack.old (Raises image.now) r signal args s m
        → on stack.new (LeadsTo image.now) s (record m { turns = turns.new }) result }
{
    if *turns == 0 {
        return Sequel::Ends(End::Spent);
    }
    *turns -= 1;
    wait(&mut stack.rows, r, stack.layout, args);
    let first = around(image, tables, row_of(stack, r.top), stack.layout);
    let raised = RaisedSignal {
        signal,
        from: r.sp - args,
        args,
        place: r.top,
        search: first,
    };
    seek_arm(image, tables, raised, stack, r.top, turns)
}

/// The instruction that raises a signal of the topmost activation's module, whose code this is.
#[inline(always)]
pub fn raise_own(
    image: &Image,
    tables: &Tables,
    code: &ModuleCode,
    number: u32,
    stack: &mut Stack,
    r: Registers,
    turns: &mut u64,
) -> Sequel
    requires tables { AreTables image.now stack.old.layout tables.now }
    requires room { HasRoom stack.old r.top }
    requires stands { on stack.old (StandsIn image.now) r }
    requires code { IsCodeOf image.now code.now stack.old.rows.items r }
    requires at { IsAt code.now stack.old.rows.items r (Raise number) }
    ensures room { KeepsRoom stack.old stack.new result }
    ensures turns_fall { turns.new ≤ turns.old }
    ensures arms { ArmsHold image.now stack.old.rows.items r.top → HoldsOn image.now stack.new.rows.items result }
    ensures leads { (s : Stepped) (m : Store) → m.turns ≡ turns.old → on stack.old (Shown image.now) r s m
        → on stack.new (LeadsTo image.now) s (record m { turns = turns.new; begun = suc m.begun }) result }
{
    let signal = SignalId::Own(row_of(stack, r.top).instance, number);
    let args = usize::from(code.signals.as_slice()[number as usize].args);
    raise(image, tables, signal, args, stack, r, turns)
}

// The signal for which a link of a signal or an error stands.
fn raised_by(bound: Link) -> SignalId
    ensures { result ≡ raised_by bound }
{
    match bound {
        Link::Wanted(_) => SignalId::NoInput,
        Link::To { instance, number } => SignalId::Own(instance, number),
    }
}

/// The instruction that raises a signal of another module, by the number of a link of the topmost activation's module,
/// whose code this is.
#[inline(always)]
pub fn raise_linked(
    image: &Image,
    tables: &Tables,
    code: &ModuleCode,
    link: u32,
    stack: &mut Stack,
    r: Registers,
    turns: &mut u64,
) -> Sequel
    requires tables { AreTables image.now stack.old.layout tables.now }
    requires room { HasRoom stack.old r.top }
    requires stands { on stack.old (StandsIn image.now) r }
    requires code { IsCodeOf image.now code.now stack.old.rows.items r }
    requires at { IsAt code.now stack.old.rows.items r (RaiseLink link) }
    ensures room { KeepsRoom stack.old stack.new result }
    ensures turns_fall { turns.new ≤ turns.old }
    ensures arms { ArmsHold image.now stack.old.rows.items r.top → HoldsOn image.now stack.new.rows.items result }
    ensures leads { (s : Stepped) (m : Store) → m.turns ≡ turns.old → on stack.old (Shown image.now) r s m
        → on stack.new (LeadsTo image.now) s (record m { turns = turns.new; begun = suc m.begun }) result }
{
    let instance = row_of(stack, r.top).instance;
    let signal = raised_by(image.links.as_slice()[instance as usize].as_slice()[link as usize]);
    let args = code.links.as_slice()[link as usize].args as usize;
    raise(image, tables, signal, args, stack, r, turns)
}

// The predeclared signal of a number.
#[tactic(auto, unfolding(machine_rules::specs::Steps::host_signal))]
fn host_signal(fault: u8) -> SignalId
    requires { fault ≤ 2 }
    ensures { host_signal fault ≡ Some result }
{
    match fault {
        0 => SignalId::BoundsFault,
        1 => SignalId::ZeroDivisor,
        _ => SignalId::Unnamed,
    }
}

/// The instruction that raises a predeclared signal; the code is that of the topmost activation.
#[inline(always)]
pub fn raise_host(
    image: &Image,
    tables: &Tables,
    code: &ModuleCode,
    fault: u8,
    stack: &mut Stack,
    r: Registers,
    turns: &mut u64,
) -> Sequel
    requires tables { AreTables image.now stack.old.layout tables.now }
    requires room { HasRoom stack.old r.top }
    requires stands { on stack.old (StandsIn image.now) r }
    requires code { IsCodeOf image.now code.now stack.old.rows.items r }
    requires at { IsAt code.now stack.old.rows.items r (RaiseHost fault) }
    ensures room { KeepsRoom stack.old stack.new result }
    ensures turns_fall { turns.new ≤ turns.old }
    ensures arms { ArmsHold image.now stack.old.rows.items r.top → HoldsOn image.now stack.new.rows.items result }
    ensures leads { (s : Stepped) (m : Store) → m.turns ≡ turns.old → on stack.old (Shown image.now) r s m
        → on stack.new (LeadsTo image.now) s (record m { turns = turns.new; begun = suc m.begun }) result }
{
    let signal = host_signal(fault);
    raise(image, tables, signal, 0, stack, r, turns)
}
