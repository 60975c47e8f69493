//! Frames on top of the activations in the region.

ghost use Rattle.std.specs.Prelude.{◌≡◌, ◌+◌, ◌-◌, ◌*◌, ◌<◌, ◌≤◌, length, replicate, slice_set, vec_capacity};
ghost use Rattle.mesa_base.specs.declared.limits.TheConstants.{ACTIVATIONS};
ghost use Rattle.machine_topmost.specs.Flat.{part, with_part};
ghost use Rattle.machine_activations.specs.Frames.{back_registers, end_at, entered, frame_registers, owner_place, row_at, waiting, with_frame};

use crate::row::{Kind, Layout, Row};
use machine_topmost::Registers;

/// The place of the frame of an activation.
#[inline(always)]
#[tactic(auto, unfolding(crate::specs::Frames::owner_place))]
pub fn owner_of(kind: Kind, place: usize) -> usize
    ensures { result ≡ owner_place kind place }
{
    match kind {
        Kind::Frame => place,
        Kind::Arm { owner, .. } => owner,
    }
}

/// Sets words of the region to 0.
#[inline(always)]
pub(crate) fn clear(region: &mut Vec<u16>, at: usize, count: usize)
    requires room { at + count ≤ length region.old.items }
    ensures words { region.new.items ≡ with_part region.old.items at (replicate count 0) }
    ensures long { length region.new.items ≡ length region.old.items }
    ensures reserved { vec_capacity region.new ≡ vec_capacity region.old }
{
    region.as_mut_slice()[at..at + count].fill(0);
}

/// Moves words of the region.
#[inline(always)]
pub fn move_words(region: &mut Vec<u16>, from: usize, count: usize, to: usize)
    requires source { from + count ≤ length region.old.items }
    requires room { to + count ≤ length region.old.items }
    ensures words { region.new.items ≡ with_part region.old.items to (part region.old.items from count) }
    ensures long { length region.new.items ≡ length region.old.items }
    ensures reserved { vec_capacity region.new ≡ vec_capacity region.old }
{
    region.as_mut_slice().copy_within(from..from + count, to);
}

/// The topmost activation waits where it stands, without so many of its operands.
#[inline(always)]
#[tactic(auto, using(crate::proofs::Tables::row_at_place))]
pub fn wait(rows: &mut Vec<Row>, r: Registers, layout: Layout, args: usize)
    requires there { r.top < length rows.old.items }
    requires operands { r.top * layout.part + layout.frame + args ≤ r.sp }
    ensures { rows.new.items ≡ slice_set rows.old.items r.top (waiting (row_at rows.old.items r.top) r layout args) }
{
    let row = rows[r.top];
    rows[r.top] = Row {
        instance: row.instance,
        procedure: row.procedure,
        entry: r.entry,
        count: r.sp - args - (r.top * layout.part + layout.frame),
        kind: row.kind,
    };
}

/// Adds the row of a frame on top; the activation below waits, without the operands that are the frame's arguments.
#[inline(always)]
pub(crate) fn add_row(
    rows: &mut Vec<Row>,
    r: Registers,
    layout: Layout,
    args: usize,
    instance: u32,
    procedure: u32,
)
    requires rows { r.top + 1 < length rows.old.items }
    requires operands { r.top * layout.part + layout.frame + args ≤ r.sp }
    ensures { rows.new.items ≡ with_frame rows.old.items r layout args instance procedure }
{
    wait(rows, r, layout, args);
    rows[r.top + 1] = Row {
        instance,
        procedure,
        entry: 0,
        count: 0,
        kind: Kind::Frame,
    };
}

/// Makes a frame on top, with the last operands of the activation below as its arguments, and its other variables 0.
#[inline(always)]
pub(crate) fn enter(
    region: &mut Vec<u16>,
    r: Registers,
    layout: Layout,
    args: usize,
    frame: usize,
) -> Registers
    requires top { r.top < ACTIVATIONS }
    requires room { (r.top + 1) * layout.part + layout.part ≤ length region.old.items }
    requires args { args ≤ frame }
    requires frame { frame ≤ layout.frame }
    requires part { layout.frame ≤ layout.part }
    requires operands { r.top * layout.part + layout.frame + args ≤ r.sp }
    requires below { r.sp ≤ (r.top + 1) * layout.part }
    ensures words { region.new.items ≡ entered region.old.items r layout args frame }
    ensures long { length region.new.items ≡ length region.old.items }
    ensures reserved { vec_capacity region.new ≡ vec_capacity region.old }
    ensures registers { result ≡ frame_registers r layout }
{
    let top = r.top + 1;
    let slots = top * layout.part;
    move_words(region, r.sp - args, args, slots);
    clear(region, slots + args, frame - args);
    Registers {
        top,
        slots,
        sp: slots + layout.frame,
        entry: 0,
    }
}

/// Gives up the activation on top: the one below, of this row, goes on at an entry, and is given words that stand above it.
#[inline(always)]
pub fn give(
    region: &mut Vec<u16>,
    row: Row,
    place: usize,
    layout: Layout,
    from: usize,
    count: usize,
    entry: usize,
) -> Registers
    requires source { from + count ≤ length region.old.items }
    requires room { place * layout.part + layout.frame + row.count + count ≤ length region.old.items }
    requires owner { owner_place row.kind place * layout.part ≤ length region.old.items }
    ensures words { region.new.items ≡ with_part region.old.items (end_at row place layout) (part region.old.items from count) }
    ensures long { length region.new.items ≡ length region.old.items }
    ensures reserved { vec_capacity region.new ≡ vec_capacity region.old }
    ensures registers { result ≡ back_registers row place layout count entry }
{
    let end = place * layout.part + layout.frame + row.count;
    move_words(region, from, count, end);
    Registers {
        top: place,
        slots: owner_of(row.kind, place) * layout.part,
        sp: end + count,
        entry,
    }
}
