//! Words of the region and of the globals, which instructions copy, clear and turn.

ghost use Rattle.std.specs.Prelude.{◌≡◌, ◌+◌, ◌-◌, ◌<◌, ◌≤◌, ◌⊎◌, ◌++◌, length, replicate, slice_index, slice_set};
ghost use Rattle.machine_topmost.specs.Flat.{part, with_part, behind};

use crate::registers::Registers;

/// Copies words of the region to a part of it that has none of them.
#[inline(never)]
pub(crate) fn copy(region: &mut [u16], from: usize, to: usize, count: usize)
    requires apart { (from + count ≤ to) ⊎ (to + count ≤ from) }
    requires source { from + count ≤ length region.old }
    requires room { to + count ≤ length region.old }
    ensures { region.new ≡ with_part region.old to (part region.old from count) }
{
    for i in 0..count {
        region[to + i] = region[from + i];
    }
}

/// Copies words of another list to the region, or of the region to another list.
#[inline(never)]
pub(crate) fn bring(words: &[u16], from: usize, region: &mut [u16], to: usize, count: usize)
    requires source { from + count ≤ length words.now }
    requires room { to + count ≤ length region.old }
    ensures { region.new ≡ with_part region.old to (part words.now from count) }
{
    for i in 0..count {
        region[to + i] = words[from + i];
    }
}

/// Sets words to 0.
#[inline(never)]
pub(crate) fn clear(region: &mut [u16], at: usize, count: usize)
    requires room { at + count ≤ length region.old }
    ensures { region.new ≡ with_part region.old at (replicate count 0) }
{
    for i in 0..count {
        region[at + i] = 0;
    }
}

/// The operand of this number, the topmost one being 1.
#[inline(always)]
pub(crate) fn operand(region: &[u16], r: &Registers, number: usize) -> u16
    requires some { 1 ≤ number }
    requires there { number ≤ r.now.sp }
    requires room { r.now.sp ≤ length region.now }
    ensures { result ≡ slice_index region.now (r.now.sp - number) }
{
    region[r.sp - number]
}

/// Puts the word in the place of so many operands, and goes on.
#[inline(always)]
pub(crate) fn leave(word: u16, takes: usize, region: &mut [u16], r: &mut Registers)
    requires some { 1 ≤ takes }
    requires there { takes ≤ r.old.sp }
    requires room { r.old.sp ≤ length region.old }
    requires next { r.old.entry + 1 < usize.MAX }
    ensures region { region.new ≡ slice_set region.old (r.old.sp - takes) word }
    ensures registers { r.new ≡ behind (r.old.sp - takes + 1) r.old }
{
    r.sp -= takes;
    region[r.sp] = word;
    r.sp += 1;
    r.entry += 1;
}
