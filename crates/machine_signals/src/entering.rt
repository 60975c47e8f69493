//! Arms that are run.

ghost use Rattle.std.specs.Prelude.{◌≡◌, ◌+◌, ◌*◌, ◌≤◌, length, vec_capacity};
ghost use Rattle.machine_rules.specs.State.{Stepped, Store};
ghost use Rattle.machine_topmost.specs.Flat.{part};
ghost use Rattle.machine_activations.specs.Calling.{LeadsTo};
ghost use Rattle.machine_activations.specs.Stacks.{HasRoom, KeepsRoom, on};
ghost use Rattle.machine_signals.specs.Arms.{AddsArm, Awaits, CanEnter, arm_registers, with_params};
ghost use Rattle.machine_signals.specs.Indexed.{AreTables};

use crate::arms::taken;
use crate::lookups::plan_of;
use machine_activations::{
    Kind, Layout, Reason, Row, Sequel, Stack, make_room, move_words, owner_of, row_of,
};
use machine_ready::Tables;
use machine_rules::End;
use machine_topmost::Registers;
use mesa_base::limits::ACTIVATIONS;
use object_files::Image;

/// An arm that is to be run: that of a number of the activation at a place, and why; so many words, which stand in the region
/// from a place on, are given to it.
#[derive(Clone, Copy)]
pub struct ArmRun {
    pub place: usize,
    pub arm: u32,
    pub reason: Reason,
    pub from: usize,
    pub count: usize,
}

/// The parameters of an arm are put into the frame of its owner.
#[inline(always)]
fn put_params(
    region: &mut Vec<u16>,
    layout: Layout,
    owner: usize,
    slot: usize,
    from: usize,
    words: usize,
)
    requires source { from + words ≤ length region.old.items }
    requires params { owner * layout.part + slot + words ≤ length region.old.items }
    ensures region { region.new.items ≡ with_params region.old.items layout owner slot (part region.old.items from words) }
    ensures long { length region.new.items ≡ length region.old.items }
    ensures reserved { vec_capacity region.new ≡ vec_capacity region.old }
{
    move_words(region, from, words, owner * layout.part + slot);
}

/// A running arm at a place goes on at an entry without operands.
#[inline(always)]
fn opened(stack: &Stack, top: usize, owner: usize, entry: usize) -> Registers
    requires owner { owner * stack.now.layout.part ≤ length stack.now.region.items }
    requires room { top * stack.now.layout.part + stack.now.layout.frame ≤ length stack.now.region.items }
    ensures { result ≡ arm_registers stack.now.layout top owner entry }
{
    let layout = stack.layout;
    Registers {
        top,
        slots: owner * layout.part,
        sp: top * layout.part + layout.frame,
        entry,
    }
}

/// Runs an arm over all activations, the topmost of which stands at `top`: its parameters are put into the frame of its
/// owner. A turn is spent, and the run ends where as many activations stand as may.
#[inline(always)]
pub(crate) fn enter_arm(
    image: &Image,
    tables: &Tables,
    run: ArmRun,
    stack: &mut Stack,
    top: usize,
    turns: &mut u64,
) -> Sequel
    requires tables { AreTables image.now stack.old.layout tables.now }
    requires room { HasRoom stack.old top }
    requires enters { on stack.old (CanEnter image.now) top run.place run.arm run.reason run.from run.count }
    ensures room { KeepsRoom stack.old stack.new result }
    ensures turns_fall { turns.new ≤ turns.old }
    ensures adds { AddsArm stack.old.rows.items top run.place run.arm run.reason stack.new.rows.items result }
    ensures leads { (s : Stepped) (m : Store) → m.turns ≡ turns.old
        → on stack.old (Awaits image.now) top run.place run.arm run.reason run.from run.count s m
        → on stack.new (LeadsTo image.now) s (record m { turns = turns.new }) result }
{
    if *turns == 0 {
        return Sequel::Ends(End::Spent);
    }
    *turns -= 1;
    if top + 1 >= ACTIVATIONS {
        return Sequel::Ends(End::FrameLimit);
    }
    let layout = stack.layout;
    make_room(&mut stack.region, layout, top + 1);
    let holder = row_of(stack, run.place);
    let plan = plan_of(image, &tables.plans, holder.instance, holder.procedure);
    let opening = plan.openings.as_slice()[run.arm as usize];
    let owner = owner_of(holder.kind, run.place);
    let words = taken(run.count, usize::from(opening.words));
    let slot = usize::from(opening.slot);
    put_params(&mut stack.region, layout, owner, slot, run.from, words);
    stack.rows[top + 1] = Row {
        instance: holder.instance,
        procedure: holder.procedure,
        entry: 0,
        count: 0,
        kind: Kind::Arm {
            owner,
            arm: run.arm,
            reason: run.reason,
        },
    };
    Sequel::Goes(opened(stack, top + 1, owner, opening.entry as usize))
}
