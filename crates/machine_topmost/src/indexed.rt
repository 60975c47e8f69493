//! The instructions that move words between operands and variables or globals, at an offset that stands on the operands.

ghost use Rattle.std.specs.Prelude.{◌≡◌, ℕ, List, ◌+◌, ◌-◌, ◌<◌, ◌≤◌, length};
ghost use Rattle.code_forms.specs.declared.instruction.Instruction.TheVariants.{LoadLX, StoreLX, LoadGX, StoreGX};
ghost use Rattle.machine_topmost.specs.Flat.{Flows, FlowsInRegion, flat};

use crate::region::{bring, copy, operand};
use crate::registers::{Registers, Why};

#[inline(always)]
#[tactic(auto, unfolding(crate::specs::Flat::flat, crate::specs::Flat::Flows))]
pub(crate) fn load_indexed(
    slot: u16,
    extent: u16,
    count: u16,
    region: &mut [u16],
    r: &mut Registers,
) -> Option<Why>
    requires some { 1 ≤ r.old.sp }
    requires there { r.old.sp ≤ length region.old }
    requires apart { r.old.slots + slot + extent ≤ r.old.sp - 1 }
    requires room { r.old.sp - 1 + count ≤ length region.old }
    requires next { r.old.entry + 1 < usize.MAX }
    ensures { (texts : ℕ → ℕ → List ℕ) (number target : ℕ) →
        FlowsInRegion (flat texts number (LoadLX slot extent count) target) result region.old region.new r.old r.new }
{
    let offset = usize::from(operand(region, r, 1));
    if offset + usize::from(count) > usize::from(extent) {
        return Some(Why::BoundsFault);
    }
    let from = r.slots + usize::from(slot) + offset;
    copy(region, from, r.sp - 1, usize::from(count));
    r.sp = r.sp - 1 + usize::from(count);
    r.entry += 1;
    None
}

#[inline(always)]
#[tactic(auto, unfolding(crate::specs::Flat::flat, crate::specs::Flat::Flows))]
pub(crate) fn store_indexed(
    slot: u16,
    extent: u16,
    count: u16,
    region: &mut [u16],
    r: &mut Registers,
) -> Option<Why>
    requires some { count + 1 ≤ r.old.sp }
    requires there { r.old.sp ≤ length region.old }
    requires apart { r.old.slots + slot + extent ≤ r.old.sp - (count + 1) }
    requires next { r.old.entry + 1 < usize.MAX }
    ensures { (texts : ℕ → ℕ → List ℕ) (number target : ℕ) →
        FlowsInRegion (flat texts number (StoreLX slot extent count) target) result region.old region.new r.old r.new }
{
    let offset = usize::from(operand(region, r, usize::from(count) + 1));
    if offset + usize::from(count) > usize::from(extent) {
        return Some(Why::BoundsFault);
    }
    let to = r.slots + usize::from(slot) + offset;
    copy(region, r.sp - usize::from(count), to, usize::from(count));
    r.sp -= usize::from(count) + 1;
    r.entry += 1;
    None
}

#[inline(always)]
#[tactic(auto, unfolding(crate::specs::Flat::flat, crate::specs::Flat::Flows))]
pub(crate) fn load_global_indexed(
    slot: u16,
    extent: u16,
    count: u16,
    globals: &[u16],
    region: &mut [u16],
    r: &mut Registers,
) -> Option<Why>
    requires some { 1 ≤ r.old.sp }
    requires there { r.old.sp ≤ length region.old }
    requires source { slot + extent ≤ length globals.now }
    requires room { r.old.sp - 1 + count ≤ length region.old }
    requires next { r.old.entry + 1 < usize.MAX }
    ensures { (texts : ℕ → ℕ → List ℕ) (number target turns : ℕ) →
        Flows (flat texts number (LoadGX slot extent count) target
        (record { region = region.old; globals = globals.now; registers = r.old; turns = turns })) result
        (record { region = region.old; globals = globals.now; registers = r.old; turns = turns })
        (record { region = region.new; globals = globals.now; registers = r.new; turns = turns }) }
{
    let offset = usize::from(operand(region, r, 1));
    if offset + usize::from(count) > usize::from(extent) {
        return Some(Why::BoundsFault);
    }
    bring(
        globals,
        usize::from(slot) + offset,
        region,
        r.sp - 1,
        usize::from(count),
    );
    r.sp = r.sp - 1 + usize::from(count);
    r.entry += 1;
    None
}

#[inline(always)]
#[tactic(auto, unfolding(crate::specs::Flat::flat, crate::specs::Flat::Flows))]
pub(crate) fn store_global_indexed(
    slot: u16,
    extent: u16,
    count: u16,
    globals: &mut [u16],
    region: &[u16],
    r: &mut Registers,
) -> Option<Why>
    requires some { count + 1 ≤ r.old.sp }
    requires there { r.old.sp ≤ length region.now }
    requires target { slot + extent ≤ length globals.old }
    requires next { r.old.entry + 1 < usize.MAX }
    ensures { (texts : ℕ → ℕ → List ℕ) (number target turns : ℕ) →
        Flows (flat texts number (StoreGX slot extent count) target
        (record { region = region.now; globals = globals.old; registers = r.old; turns = turns })) result
        (record { region = region.now; globals = globals.old; registers = r.old; turns = turns })
        (record { region = region.now; globals = globals.new; registers = r.new; turns = turns }) }
{
    let offset = usize::from(operand(region, r, usize::from(count) + 1));
    if offset + usize::from(count) > usize::from(extent) {
        return Some(Why::BoundsFault);
    }
    bring(
        region,
        r.sp - usize::from(count),
        globals,
        usize::from(slot) + offset,
        usize::from(count),
    );
    r.sp -= usize::from(count) + 1;
    r.entry += 1;
    None
}
