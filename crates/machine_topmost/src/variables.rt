//! The instructions that move words between operands, variables and globals.

ghost use Rattle.std.specs.Prelude.{◌≡◌, ◌+◌, ◌-◌, ◌<◌, ◌≤◌, ◌++◌, length, replicate, slice_index, slice_set, nat_le};
ghost use Rattle.machine_topmost.specs.Flat.{part, with_part, behind};

use crate::region::{bring, clear, copy};
use crate::registers::Registers;

#[inline(always)]
pub(crate) fn literal(word: u16, region: &mut [u16], r: &mut Registers)
    requires room { r.old.sp + 1 ≤ length region.old }
    requires next { r.old.entry + 1 < usize.MAX }
    ensures region { region.new ≡ slice_set region.old r.old.sp word }
    ensures registers { r.new ≡ behind (r.old.sp + 1) r.old }
{
    region[r.sp] = word;
    r.sp += 1;
    r.entry += 1;
}

/// The two words of a string literal of the module of this number.
#[inline(always)]
pub(crate) fn string(number: u16, literal: u16, region: &mut [u16], r: &mut Registers)
    requires number { number < 65535 }
    requires room { r.old.sp + 2 ≤ length region.old }
    requires next { r.old.entry + 1 < usize.MAX }
    ensures region { region.new ≡ slice_set (slice_set region.old r.old.sp (number + 1)) (r.old.sp + 1) literal }
    ensures registers { r.new ≡ behind (r.old.sp + 2) r.old }
{
    region[r.sp] = number + 1;
    region[r.sp + 1] = literal;
    r.sp += 2;
    r.entry += 1;
}

#[inline(always)]
pub(crate) fn load(slot: u16, count: u16, region: &mut [u16], r: &mut Registers)
    requires apart { r.old.slots + slot + count ≤ r.old.sp }
    requires room { r.old.sp + count ≤ length region.old }
    requires next { r.old.entry + 1 < usize.MAX }
    ensures region { region.new ≡ with_part region.old r.old.sp (part region.old (r.old.slots + slot) count) }
    ensures registers { r.new ≡ behind (r.old.sp + count) r.old }
{
    copy(
        region,
        r.slots + usize::from(slot),
        r.sp,
        usize::from(count),
    );
    r.sp += usize::from(count);
    r.entry += 1;
}

#[inline(always)]
pub(crate) fn store(slot: u16, count: u16, region: &mut [u16], r: &mut Registers)
    requires there { count ≤ r.old.sp }
    requires room { r.old.sp ≤ length region.old }
    requires apart { r.old.slots + slot + count ≤ r.old.sp - count }
    requires next { r.old.entry + 1 < usize.MAX }
    ensures region { region.new ≡ with_part region.old (r.old.slots + slot) (part region.old (r.old.sp - count) count) }
    ensures registers { r.new ≡ behind (r.old.sp - count) r.old }
{
    r.sp -= usize::from(count);
    copy(
        region,
        r.sp,
        r.slots + usize::from(slot),
        usize::from(count),
    );
    r.entry += 1;
}

#[inline(always)]
pub(crate) fn load_global(
    slot: u16,
    count: u16,
    globals: &[u16],
    region: &mut [u16],
    r: &mut Registers,
)
    requires source { slot + count ≤ length globals.now }
    requires room { r.old.sp + count ≤ length region.old }
    requires next { r.old.entry + 1 < usize.MAX }
    ensures region { region.new ≡ with_part region.old r.old.sp (part globals.now slot count) }
    ensures registers { r.new ≡ behind (r.old.sp + count) r.old }
{
    bring(globals, usize::from(slot), region, r.sp, usize::from(count));
    r.sp += usize::from(count);
    r.entry += 1;
}

#[inline(always)]
pub(crate) fn store_global(
    slot: u16,
    count: u16,
    globals: &mut [u16],
    region: &[u16],
    r: &mut Registers,
)
    requires there { count ≤ r.old.sp }
    requires room { r.old.sp ≤ length region.now }
    requires target { slot + count ≤ length globals.old }
    requires next { r.old.entry + 1 < usize.MAX }
    ensures globals { globals.new ≡ with_part globals.old slot (part region.now (r.old.sp - count) count) }
    ensures registers { r.new ≡ behind (r.old.sp - count) r.old }
{
    r.sp -= usize::from(count);
    bring(region, r.sp, globals, usize::from(slot), usize::from(count));
    r.entry += 1;
}

#[inline(always)]
pub(crate) fn zero(slot: u16, count: u16, region: &mut [u16], r: &mut Registers)
    requires room { r.old.slots + slot + count ≤ length region.old }
    requires next { r.old.entry + 1 < usize.MAX }
    ensures region { region.new ≡ with_part region.old (r.old.slots + slot) (replicate count 0) }
    ensures registers { r.new ≡ behind r.old.sp r.old }
{
    clear(region, r.slots + usize::from(slot), usize::from(count));
    r.entry += 1;
}

#[inline(always)]
pub(crate) fn zero_global(slot: u16, count: u16, globals: &mut [u16], r: &mut Registers)
    requires room { slot + count ≤ length globals.old }
    requires next { r.old.entry + 1 < usize.MAX }
    ensures globals { globals.new ≡ with_part globals.old slot (replicate count 0) }
    ensures registers { r.new ≡ behind r.old.sp r.old }
{
    clear(globals, usize::from(slot), usize::from(count));
    r.entry += 1;
}

#[inline(always)]
pub(crate) fn pop(count: u16, r: &mut Registers)
    requires there { count ≤ r.old.sp }
    requires next { r.old.entry + 1 < usize.MAX }
    ensures { r.new ≡ behind (r.old.sp - count) r.old }
{
    r.sp -= usize::from(count);
    r.entry += 1;
}

/// Brings words that lie under the topmost ones to the top.
#[inline(always)]
pub(crate) fn roll(count: u16, over: u16, region: &mut [u16], r: &mut Registers)
    requires there { count + over ≤ r.old.sp }
    requires room { r.old.sp ≤ length region.old }
    requires next { r.old.entry + 1 < usize.MAX }
    ensures region { region.new ≡ with_part region.old (r.old.sp - (count + over))
        (part region.old (r.old.sp - over) over ++ part region.old (r.old.sp - (count + over)) count) }
    ensures registers { r.new ≡ behind r.old.sp r.old }
{
    let under = usize::from(count);
    let first = r.sp - (under + usize::from(over));
    region[first..r.sp].rotate_left(under);
    r.entry += 1;
}
