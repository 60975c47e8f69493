//! The instructions that operate on the topmost operands.

ghost use Rattle.std.specs.Prelude.{◌≡◌, ℕ, List, ◌+◌, ◌*◌, ◌<◌, ◌≤◌, length, nat_eq, nat_lt, slice_index, slice_set, ◌-◌};
ghost use Rattle.mesa_types.specs.declared.typed_parts.Range.TheVariants.{From};
ghost use Rattle.mesa_types.specs.Operators.{wrap, quotient, remainder, related, fits, by_divisor, byte_at};
ghost use Rattle.mesa_types.specs.Operators as spec;
ghost use Rattle.mesa_base.specs.declared.relation.Relation.TheVariants.{Less};
ghost use Rattle.machine_rules.specs.LookUps.{text_of};
ghost use Rattle.machine_topmost.specs.Flat.{FlowsInRegion, behind, operand, over, over_tried, in_bounds, leaves};
ghost use Rattle.machine_topmost.specs.Fits.{Holds};

use crate::region::{leave, operand};
use crate::registers::{Registers, Why};
use crate::texts::text;
use machine_rules::object_files::Image;
use machine_rules::typed_answers::{fits, opposite, quotient, related, remainder, truth};
use mesa_base::Relation;
use mesa_types::{Base, Range};

/// The topmost operand, and the one under it.
#[inline(always)]
fn first(region: &[u16], r: &Registers) -> u16
    requires { Holds 1 (length region.now) r.now }
    ensures { result ≡ slice_index region.now (r.now.sp - 1) }
{
    region[r.sp - 1]
}

#[inline(always)]
fn second(region: &[u16], r: &Registers) -> u16
    requires { Holds 2 (length region.now) r.now }
    ensures { result ≡ slice_index region.now (r.now.sp - 2) }
{
    region[r.sp - 2]
}

/// An offset, plus an index times the size of an element.
#[inline(always)]
#[tactic(auto, unfolding(mesa_types::specs::Operators::wrap, crate::specs::Flat::Flows))]
pub(crate) fn index(count: u16, size: u16, region: &mut [u16], r: &mut Registers) -> Option<Why>
    requires holds { Holds 2 (length region.old) r.old }
    requires next { r.old.entry + 1 < usize.MAX }
    ensures { FlowsInRegion
        (λ s. in_bounds (nat_lt (operand 1 s) count) (over 2 (wrap (operand 2 s + operand 1 s * size)) s))
        result region.old region.new r.old r.new }
{
    let at = first(region, r);
    if at >= count {
        return Some(Why::BoundsFault);
    }
    let word = second(region, r).wrapping_add(at.wrapping_mul(size));
    leave(word, 2, region, r);
    None
}

#[inline(always)]
#[tactic(auto, using(crate::proofs::Tries::by_some, crate::proofs::Tries::by_none), unfolding(crate::specs::Flat::over_tried, crate::specs::Flat::Flows))]
pub(crate) fn divide(base: Base, region: &mut [u16], r: &mut Registers) -> Option<Why>
    requires holds { Holds 2 (length region.old) r.old }
    requires next { r.old.entry + 1 < usize.MAX }
    ensures { FlowsInRegion
        (λ s. over_tried 2 (by_divisor (operand 1 s) (quotient base (operand 2 s) (operand 1 s))) s)
        result region.old region.new r.old r.new }
{
    let divisor = first(region, r);
    if divisor == 0 {
        return Some(Why::ZeroDivisor);
    }
    let word = quotient(base, second(region, r), divisor);
    leave(word, 2, region, r);
    None
}

#[inline(always)]
#[tactic(auto, using(crate::proofs::Tries::by_some, crate::proofs::Tries::by_none), unfolding(crate::specs::Flat::over_tried, crate::specs::Flat::Flows))]
pub(crate) fn modulo(base: Base, region: &mut [u16], r: &mut Registers) -> Option<Why>
    requires holds { Holds 2 (length region.old) r.old }
    requires next { r.old.entry + 1 < usize.MAX }
    ensures { FlowsInRegion
        (λ s. over_tried 2 (by_divisor (operand 1 s) (remainder base (operand 2 s) (operand 1 s))) s)
        result region.old region.new r.old r.new }
{
    let divisor = first(region, r);
    if divisor == 0 {
        return Some(Why::ZeroDivisor);
    }
    let word = remainder(base, second(region, r), divisor);
    leave(word, 2, region, r);
    None
}

#[inline(always)]
#[tactic(auto, unfolding(crate::specs::Flat::Flows))]
pub(crate) fn check(
    base: Base,
    least: u16,
    most: u16,
    region: &[u16],
    r: &mut Registers,
) -> Option<Why>
    requires holds { Holds 1 (length region.now) r.old }
    requires next { r.old.entry + 1 < usize.MAX }
    ensures { FlowsInRegion
        (λ s. in_bounds (fits (From base least most) (operand 1 s)) (leaves s.region s.registers.sp s))
        result region.now region.now r.old r.new }
{
    if !fits(Range::From(base, least, most), first(region, r)) {
        return Some(Why::BoundsFault);
    }
    r.entry += 1;
    None
}

#[inline(always)]
pub(crate) fn string_length(image: &Image, region: &mut [u16], r: &mut Registers)
    requires holds { Holds 2 (length region.old) r.old }
    requires next { r.old.entry + 1 < usize.MAX }
    ensures region { region.new ≡ slice_set region.old (r.old.sp - 2)
        (length (text_of image.now (slice_index region.old (r.old.sp - 2)) (slice_index region.old (r.old.sp - 1)))) }
    ensures registers { r.new ≡ behind (r.old.sp - 2 + 1) r.old }
{
    let bytes = text(image, second(region, r), first(region, r));
    leave(bytes.len() as u16, 2, region, r);
}

#[inline(always)]
#[tactic(auto, unfolding(crate::specs::Flat::over_tried, crate::specs::Flat::Flows, mesa_types::specs::Operators::byte_at, mesa_types::specs::Operators::fine_or))]
pub(crate) fn string_at(image: &Image, region: &mut [u16], r: &mut Registers) -> Option<Why>
    requires holds { Holds 3 (length region.old) r.old }
    requires next { r.old.entry + 1 < usize.MAX }
    ensures { FlowsInRegion
        (λ s. over_tried 3 (byte_at (text_of image.now (operand 3 s) (operand 2 s)) (operand 1 s)) s)
        result region.old region.new r.old r.new }
{
    let bytes = text(image, operand(region, r, 3), second(region, r));
    let at = usize::from(first(region, r));
    if at >= bytes.len() {
        return Some(Why::BoundsFault);
    }
    leave(u16::from(bytes[at]), 3, region, r);
    None
}

#[inline(always)]
pub(crate) fn less(base: Base, region: &mut [u16], r: &mut Registers)
    requires holds { Holds 2 (length region.old) r.old }
    requires next { r.old.entry + 1 < usize.MAX }
    ensures region { region.new ≡ slice_set region.old (r.old.sp - 2)
        (spec.truth (related Less base (slice_index region.old (r.old.sp - 2)) (slice_index region.old (r.old.sp - 1)))) }
    ensures registers { r.new ≡ behind (r.old.sp - 2 + 1) r.old }
{
    let holds = related(Relation::Less, base, second(region, r), first(region, r));
    leave(truth(holds), 2, region, r);
}

#[inline(always)]
#[tactic(auto, unfolding(mesa_types::specs::Operators::wrap))]
pub(crate) fn add(region: &mut [u16], r: &mut Registers)
    requires holds { Holds 2 (length region.old) r.old }
    requires next { r.old.entry + 1 < usize.MAX }
    ensures region { region.new ≡ slice_set region.old (r.old.sp - 2)
        (wrap (slice_index region.old (r.old.sp - 2) + slice_index region.old (r.old.sp - 1))) }
    ensures registers { r.new ≡ behind (r.old.sp - 2 + 1) r.old }
{
    leave(
        second(region, r).wrapping_add(first(region, r)),
        2,
        region,
        r,
    );
}

#[inline(always)]
#[tactic(auto, unfolding(mesa_types::specs::Operators::wrap))]
pub(crate) fn subtract(region: &mut [u16], r: &mut Registers)
    requires holds { Holds 2 (length region.old) r.old }
    requires next { r.old.entry + 1 < usize.MAX }
    ensures region { region.new ≡ slice_set region.old (r.old.sp - 2)
        (wrap (slice_index region.old (r.old.sp - 2) + (65536 - slice_index region.old (r.old.sp - 1)))) }
    ensures registers { r.new ≡ behind (r.old.sp - 2 + 1) r.old }
{
    leave(
        second(region, r).wrapping_sub(first(region, r)),
        2,
        region,
        r,
    );
}

#[inline(always)]
#[tactic(auto, unfolding(mesa_types::specs::Operators::wrap))]
pub(crate) fn multiply(region: &mut [u16], r: &mut Registers)
    requires holds { Holds 2 (length region.old) r.old }
    requires next { r.old.entry + 1 < usize.MAX }
    ensures region { region.new ≡ slice_set region.old (r.old.sp - 2)
        (wrap (slice_index region.old (r.old.sp - 2) * slice_index region.old (r.old.sp - 1))) }
    ensures registers { r.new ≡ behind (r.old.sp - 2 + 1) r.old }
{
    leave(
        second(region, r).wrapping_mul(first(region, r)),
        2,
        region,
        r,
    );
}

#[inline(always)]
pub(crate) fn negate(region: &mut [u16], r: &mut Registers)
    requires holds { Holds 1 (length region.old) r.old }
    requires next { r.old.entry + 1 < usize.MAX }
    ensures region { region.new ≡ slice_set region.old (r.old.sp - 1) (spec.opposite (slice_index region.old (r.old.sp - 1))) }
    ensures registers { r.new ≡ behind (r.old.sp - 1 + 1) r.old }
{
    leave(opposite(first(region, r)), 1, region, r);
}

#[inline(always)]
pub(crate) fn equal(region: &mut [u16], r: &mut Registers)
    requires holds { Holds 2 (length region.old) r.old }
    requires next { r.old.entry + 1 < usize.MAX }
    ensures region { region.new ≡ slice_set region.old (r.old.sp - 2)
        (spec.truth (nat_eq (slice_index region.old (r.old.sp - 2)) (slice_index region.old (r.old.sp - 1)))) }
    ensures registers { r.new ≡ behind (r.old.sp - 2 + 1) r.old }
{
    leave(truth(second(region, r) == first(region, r)), 2, region, r);
}

#[inline(always)]
pub(crate) fn not(region: &mut [u16], r: &mut Registers)
    requires holds { Holds 1 (length region.old) r.old }
    requires next { r.old.entry + 1 < usize.MAX }
    ensures region { region.new ≡ slice_set region.old (r.old.sp - 1) (spec.truth (nat_eq (slice_index region.old (r.old.sp - 1)) 0)) }
    ensures registers { r.new ≡ behind (r.old.sp - 1 + 1) r.old }
{
    leave(truth(first(region, r) == 0), 1, region, r);
}
