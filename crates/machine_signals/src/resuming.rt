//! Arms that resume.

ghost use Rattle.std.specs.Prelude.{◌≡◌, ◌≤◌, ◌+◌, ◌-◌, suc, true};
ghost use Rattle.std.specs.Option.{option_copied};
ghost use Rattle.code_forms.specs.declared.instruction.Instruction.TheVariants.{Resume};
ghost use Rattle.machine_rules.specs.LookUps.{signal_of};
ghost use Rattle.machine_rules.specs.Signals.{takes_back, takes_of};
ghost use Rattle.machine_rules.specs.State.{Stepped, Store};
ghost use Rattle.machine_activations.specs.Calling.{IsAt, IsCodeOf, LeadsTo, StandsIn};
ghost use Rattle.machine_activations.specs.Frames.{row_at};
ghost use Rattle.machine_activations.specs.Reaching.{IsUnstuck, Shown};
ghost use Rattle.machine_activations.specs.Shows.{IsPrepared};
ghost use Rattle.machine_activations.specs.Stacks.{HasRoom, KeepsRoom, on};
ghost use Rattle.machine_signals.specs.Indexed.{AreTables};
ghost use Rattle.machine_signals.specs.Leaving.{resumes_with};
ghost use Rattle.machine_signals.specs.Raising.{ArmsHold, HoldsOn};

use crate::rejecting::reject;
use code_forms::{CodeKind, CodeSignal, ModuleCode};
use machine_activations::{Kind, Reason, Sequel, Stack, give, row_of};
use machine_ready::Tables;
use machine_topmost::Registers;
use object_files::Image;
use signaller::SignalId;

// The signal or error of a number of an instance, where there is one.
#[inline(always)]
#[tactic(auto, unfolding(machine_rules::specs::LookUps::signal_of, machine_rules::specs::LookUps::code_of, machine_rules::specs::LookUps::code_in, machine_rules::specs::LookUps::module_number))]
fn signal_at(image: &Image, instance: u32, number: u32) -> Option<&CodeSignal>
    ensures { option_copied result ≡ signal_of image.now instance number }
{
    match image.instances.get(instance as usize) {
        Some(found) => match image.modules.get(found.module as usize) {
            Some(object) => object.code.code().signals.get(number as usize),
            None => None,
        },
        None => None,
    }
}

#[inline(always)]
#[tactic(auto, unfolding(machine_rules::specs::Signals::takes_of))]
fn takes(kind: CodeKind, results: u16, words: u16) -> bool
    ensures { result ≡ takes_of kind results words }
{
    match kind {
        CodeKind::Signal => results == words,
        CodeKind::Procedure => false,
        CodeKind::Error => false,
    }
}

// Whether a signal takes back so many words.
#[inline(always)]
#[tactic(auto, unfolding(machine_rules::specs::Signals::takes_back, machine_rules::specs::Signals::takes_in))]
fn takes_back(image: &Image, signal: SignalId, words: u16) -> bool
    ensures { result ≡ takes_back image.now signal words }
{
    match signal {
        SignalId::Own(instance, number) => match signal_at(image, instance, number) {
            Some(signal) => takes(signal.kind, signal.results, words),
            None => false,
        },
        SignalId::BoundsFault => false,
        SignalId::ZeroDivisor => false,
        SignalId::NoInput => false,
        SignalId::Unnamed => false,
    }
}

// Whether an activation of this kind resumes with so many words.
#[inline(always)]
fn resumes(image: &Image, kind: Kind, words: u16) -> bool
    ensures { result ≡ resumes_with image.now kind words }
{
    match kind {
        Kind::Frame => false,
        Kind::Arm { reason, .. } => match reason {
            Reason::Raise { signal, .. } => takes_back(image, signal, words),
            Reason::Jump { .. } => false,
        },
    }
}

/// The raiser under the topmost activation, which is given up, goes on with so many of its operands.
#[inline(always)]
fn give_words(
    code: &ModuleCode,
    image: &Image,
    count: usize,
    stack: &mut Stack,
    r: Registers,
) -> Sequel
    requires prepared { IsPrepared image.now stack.old.layout }
    requires room { HasRoom stack.old r.top }
    requires stands { on stack.old (StandsIn image.now) r }
    requires code { IsCodeOf image.now code.now stack.old.rows.items r }
    requires at { IsAt code.now stack.old.rows.items r (Resume count) }
    requires resumes { resumes_with image.now (row_at stack.old.rows.items r.top).kind count ≡ true }
    requires arms { ArmsHold image.now stack.old.rows.items r.top }
    ensures room { KeepsRoom stack.old stack.new result }
    ensures arms { HoldsOn image.now stack.new.rows.items result }
    ensures leads { (s : Stepped) (m : Store) → on stack.old (Shown image.now) r s m
        → on stack.new (LeadsTo image.now) s (record m { begun = suc m.begun }) result }
{
    let under = r.top - 1;
    let below = row_of(stack, under);
    let layout = stack.layout;
    let region = &mut stack.region;
    Sequel::Goes(give(
        region,
        below,
        under,
        layout,
        r.sp - count,
        count,
        below.entry + 1,
    ))
}

/// An arm, whose code this is, resumes with so many words: its raiser goes on with them, where its signal takes so many
/// back; else the arm rejects.
#[inline(always)]
pub fn resume(
    image: &Image,
    tables: &Tables,
    code: &ModuleCode,
    words: u16,
    stack: &mut Stack,
    r: Registers,
    turns: &mut u64,
) -> Sequel
    requires tables { AreTables image.now stack.old.layout tables.now }
    requires room { HasRoom stack.old r.top }
    requires arms { ArmsHold image.now stack.old.rows.items r.top }
    requires stands { on stack.old (StandsIn image.now) r }
    requires code { IsCodeOf image.now code.now stack.old.rows.items r }
    requires at { IsAt code.now stack.old.rows.items r (Resume words) }
    ensures room { KeepsRoom stack.old stack.new result }
    ensures turns_fall { turns.new ≤ turns.old }
    ensures arms { HoldsOn image.now stack.new.rows.items result }
    ensures leads { (s : Stepped) (m : Store) → IsUnstuck image.now s → m.turns ≡ turns.old
        → on stack.old (Shown image.now) r s m
        → on stack.new (LeadsTo image.now) s (record m { turns = turns.new; begun = suc m.begun }) result }
{
    if resumes(image, row_of(stack, r.top).kind, words) {
        let count = usize::from(words);
        return give_words(code, image, count, stack, r);
    }
    reject(image, tables, stack, r, turns)
}
