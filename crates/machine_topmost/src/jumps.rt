//! Jumps.

ghost use Rattle.std.specs.Prelude.{◌≡◌, ◌+◌, ◌-◌, ◌<◌, ◌≤◌, length, nat_eq, slice_index, if◌then◌else◌};
ghost use Rattle.machine_topmost.specs.Flat.{stepped_to};

use crate::registers::Registers;

/// Goes to the target where the topmost word is not 0, else on.
#[inline(always)]
pub(crate) fn jump_if(targets: &[u32], region: &[u16], r: &mut Registers)
    requires some { 1 ≤ r.old.sp }
    requires there { r.old.sp ≤ length region.now }
    requires target { r.old.entry < length targets.now }
    ensures { r.new ≡ stepped_to (r.old.sp - 1)
        (if nat_eq (slice_index region.now (r.old.sp - 1)) 0 then r.old.entry + 1 else slice_index targets.now r.old.entry) r.old }
{
    r.sp -= 1;
    if region[r.sp] == 0 {
        r.entry += 1;
    } else {
        r.entry = targets[r.entry] as usize;
    }
}

/// Goes to the target where the topmost word is 0, else on.
#[inline(always)]
pub(crate) fn jump_if_not(targets: &[u32], region: &[u16], r: &mut Registers)
    requires some { 1 ≤ r.old.sp }
    requires there { r.old.sp ≤ length region.now }
    requires target { r.old.entry < length targets.now }
    ensures { r.new ≡ stepped_to (r.old.sp - 1)
        (if nat_eq (slice_index region.now (r.old.sp - 1)) 0 then slice_index targets.now r.old.entry else r.old.entry + 1) r.old }
{
    r.sp -= 1;
    if region[r.sp] == 0 {
        r.entry = targets[r.entry] as usize;
    } else {
        r.entry += 1;
    }
}
