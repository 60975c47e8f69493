//! The instructions over LONG numbers. Of a number's two words the more significant lies under the other.

ghost use Rattle.std.specs.Prelude.{◌≡◌, ◌+◌, ◌*◌, ◌-◌, ◌<◌, ◌≤◌, length, nat_eq, None, slice_index};
ghost use Rattle.mesa_base.specs.declared.relation.Relation.TheVariants.{Less};
ghost use Rattle.mesa_types.specs.Longs.{two_words, long_of, less_of, wrap_long, shifted_long, opposite_long, quotient_long, remainder_long, related_long, extended, is_in_common, is_word_of};
ghost use Rattle.mesa_types.specs.Operators.{by_divisor};
ghost use Rattle.mesa_types.specs.Operators as spec;
ghost use Rattle.mesa_types.specs.declared.typed_parts.Base.TheVariants.{Signed};
ghost use Rattle.machine_topmost.specs.Flat.{FlowsInRegion, behind, with_part, operand, long_operand, over, over_long, over_long_tried, in_bounds, leaves, operates_long};
ghost use Rattle.machine_topmost.specs.Fits.{Holds, FitsOperator};

use crate::region::leave;
use crate::registers::{Registers, Why};
use code_forms::Instruction;
use machine_rules::typed_answers::long_operators::{
    extended, is_in_common, is_less, is_word_of, joined, less_of, more_of, opposite, quotient,
    remainder,
};
use machine_rules::typed_answers::truth;
use mesa_types::Base;

/// The number on top, and the one under it.
#[inline(always)]
fn first(region: &[u16], r: &Registers) -> u32
    requires { Holds 2 (length region.now) r.now }
    ensures { result ≡ long_of (slice_index region.now (r.now.sp - 2)) (slice_index region.now (r.now.sp - 1)) }
{
    joined(region[r.sp - 2], region[r.sp - 1])
}

#[inline(always)]
fn second(region: &[u16], r: &Registers) -> u32
    requires { Holds 4 (length region.now) r.now }
    ensures { result ≡ long_of (slice_index region.now (r.now.sp - 4)) (slice_index region.now (r.now.sp - 3)) }
{
    joined(region[r.sp - 4], region[r.sp - 3])
}

/// Puts the two words of a number in the place of so many operands, and goes on.
#[inline(always)]
fn leave_long(number: u32, takes: usize, region: &mut [u16], r: &mut Registers)
    requires there { takes ≤ r.old.sp }
    requires room { r.old.sp - takes + 2 ≤ length region.old }
    requires next { r.old.entry + 1 < usize.MAX }
    ensures region { region.new ≡ with_part region.old (r.old.sp - takes) (two_words number) }
    ensures registers { r.new ≡ behind (r.old.sp - takes + 2) r.old }
{
    r.sp -= takes;
    region[r.sp] = more_of(number);
    region[r.sp + 1] = less_of(number);
    r.sp += 2;
    r.entry += 1;
}

#[inline(always)]
#[tactic(auto, unfolding(mesa_types::specs::Longs::wrap_long, crate::specs::Flat::Flows))]
fn add(region: &mut [u16], r: &mut Registers)
    requires holds { Holds 4 (length region.old) r.old }
    requires next { r.old.entry + 1 < usize.MAX }
    ensures { FlowsInRegion
        (λ s. over_long 4 (wrap_long (long_operand 3 s + long_operand 1 s)) s)
        None region.old region.new r.old r.new }
{
    let sum = second(region, r).wrapping_add(first(region, r));
    leave_long(sum, 4, region, r);
}

#[inline(always)]
#[tactic(auto, unfolding(mesa_types::specs::Longs::wrap_long, crate::specs::Flat::Flows))]
fn subtract(region: &mut [u16], r: &mut Registers)
    requires holds { Holds 4 (length region.old) r.old }
    requires next { r.old.entry + 1 < usize.MAX }
    ensures { FlowsInRegion
        (λ s. over_long 4 (wrap_long (long_operand 3 s + (4294967296 - long_operand 1 s))) s)
        None region.old region.new r.old r.new }
{
    let difference = second(region, r).wrapping_sub(first(region, r));
    leave_long(difference, 4, region, r);
}

#[inline(always)]
#[tactic(auto, unfolding(mesa_types::specs::Longs::wrap_long, crate::specs::Flat::Flows))]
fn multiply(region: &mut [u16], r: &mut Registers)
    requires holds { Holds 4 (length region.old) r.old }
    requires next { r.old.entry + 1 < usize.MAX }
    ensures { FlowsInRegion
        (λ s. over_long 4 (wrap_long (long_operand 3 s * long_operand 1 s)) s)
        None region.old region.new r.old r.new }
{
    let product = second(region, r).wrapping_mul(first(region, r));
    leave_long(product, 4, region, r);
}

#[inline(always)]
#[tactic(auto, unfolding(crate::specs::Flat::Flows))]
fn negate(region: &mut [u16], r: &mut Registers)
    requires holds { Holds 2 (length region.old) r.old }
    requires next { r.old.entry + 1 < usize.MAX }
    ensures { FlowsInRegion
        (λ s. over_long 2 (opposite_long (long_operand 1 s)) s)
        None region.old region.new r.old r.new }
{
    leave_long(opposite(first(region, r)), 2, region, r);
}

#[inline(always)]
#[tactic(auto, using(crate::proofs::Tries::by_some, crate::proofs::Tries::by_none), unfolding(crate::specs::Flat::over_long_tried, crate::specs::Flat::Flows))]
fn divide(base: Base, region: &mut [u16], r: &mut Registers) -> Option<Why>
    requires holds { Holds 4 (length region.old) r.old }
    requires next { r.old.entry + 1 < usize.MAX }
    ensures { FlowsInRegion
        (λ s. over_long_tried 4 (by_divisor (long_operand 1 s) (quotient_long base (long_operand 3 s) (long_operand 1 s))) s)
        result region.old region.new r.old r.new }
{
    let divisor = first(region, r);
    if divisor == 0 {
        return Some(Why::ZeroDivisor);
    }
    let number = quotient(base, second(region, r), divisor);
    leave_long(number, 4, region, r);
    None
}

#[inline(always)]
#[tactic(auto, using(crate::proofs::Tries::by_some, crate::proofs::Tries::by_none), unfolding(crate::specs::Flat::over_long_tried, crate::specs::Flat::Flows))]
fn modulo(base: Base, region: &mut [u16], r: &mut Registers) -> Option<Why>
    requires holds { Holds 4 (length region.old) r.old }
    requires next { r.old.entry + 1 < usize.MAX }
    ensures { FlowsInRegion
        (λ s. over_long_tried 4 (by_divisor (long_operand 1 s) (remainder_long base (long_operand 3 s) (long_operand 1 s))) s)
        result region.old region.new r.old r.new }
{
    let divisor = first(region, r);
    if divisor == 0 {
        return Some(Why::ZeroDivisor);
    }
    let number = remainder(base, second(region, r), divisor);
    leave_long(number, 4, region, r);
    None
}

#[inline(always)]
#[tactic(auto, unfolding(crate::specs::Flat::Flows))]
fn equal(region: &mut [u16], r: &mut Registers)
    requires holds { Holds 4 (length region.old) r.old }
    requires next { r.old.entry + 1 < usize.MAX }
    ensures { FlowsInRegion
        (λ s. over 4 (spec.truth (nat_eq (long_operand 3 s) (long_operand 1 s))) s)
        None region.old region.new r.old r.new }
{
    leave(truth(second(region, r) == first(region, r)), 4, region, r);
}

#[inline(always)]
#[tactic(auto, unfolding(crate::specs::Flat::Flows))]
fn less(base: Base, region: &mut [u16], r: &mut Registers)
    requires holds { Holds 4 (length region.old) r.old }
    requires next { r.old.entry + 1 < usize.MAX }
    ensures { FlowsInRegion
        (λ s. over 4 (spec.truth (related_long Less base (long_operand 3 s) (long_operand 1 s))) s)
        None region.old region.new r.old r.new }
{
    let holds = is_less(base, second(region, r), first(region, r));
    leave(truth(holds), 4, region, r);
}

#[inline(always)]
#[tactic(auto, unfolding(crate::specs::Flat::Flows))]
fn widen(base: Base, region: &mut [u16], r: &mut Registers)
    requires holds { Holds 1 (length region.old) r.old }
    requires room { r.old.sp + 1 ≤ length region.old }
    requires next { r.old.entry + 1 < usize.MAX }
    ensures { FlowsInRegion
        (λ s. over_long 1 (extended base (operand 1 s)) s)
        None region.old region.new r.old r.new }
{
    leave_long(extended(base, region[r.sp - 1]), 1, region, r);
}

/// The number is read with a sign.
#[inline(always)]
#[tactic(auto, unfolding(crate::specs::Flat::Flows))]
fn narrow(base: Base, region: &mut [u16], r: &mut Registers) -> Option<Why>
    requires holds { Holds 2 (length region.old) r.old }
    requires next { r.old.entry + 1 < usize.MAX }
    ensures { FlowsInRegion
        (λ s. in_bounds (is_word_of base (shifted_long Signed (long_operand 1 s))) (over 2 (less_of (long_operand 1 s)) s))
        result region.old region.new r.old r.new }
{
    let number = first(region, r);
    if !is_word_of(base, number) {
        return Some(Why::BoundsFault);
    }
    leave(less_of(number), 2, region, r);
    None
}

#[inline(always)]
#[tactic(auto, unfolding(crate::specs::Flat::Flows))]
fn check(region: &[u16], r: &mut Registers) -> Option<Why>
    requires holds { Holds 2 (length region.now) r.old }
    requires next { r.old.entry + 1 < usize.MAX }
    ensures { FlowsInRegion
        (λ s. in_bounds (is_in_common (long_operand 1 s)) (leaves s.region s.registers.sp s))
        result region.now region.now r.old r.new }
{
    if !is_in_common(first(region, r)) {
        return Some(Why::BoundsFault);
    }
    r.entry += 1;
    None
}

/// Does an instruction over LONG numbers, or gives why it is not done.
#[inline(never)]
#[tactic(auto, unfolding(crate::specs::Flat::operates_long, crate::specs::Flat::Flows, crate::specs::Fits::FitsOperator))]
fn operate_apart(instruction: &Instruction, region: &mut [u16], r: &mut Registers) -> Option<Why>
    requires fits { FitsOperator instruction.now (length region.old) r.old }
    requires next { r.old.entry + 1 < usize.MAX }
    ensures { FlowsInRegion (operates_long instruction.now) result region.old region.new r.old r.new }
{
    match *instruction {
        Instruction::AddD => add(region, r),
        Instruction::SubD => subtract(region, r),
        Instruction::MulD => multiply(region, r),
        Instruction::NegD => negate(region, r),
        Instruction::DivDI => return divide(Base::Signed, region, r),
        Instruction::ModDI => return modulo(Base::Signed, region, r),
        Instruction::DivDC => return divide(Base::Unsigned, region, r),
        Instruction::ModDC => return modulo(Base::Unsigned, region, r),
        Instruction::EqD => equal(region, r),
        Instruction::LessDI => less(Base::Signed, region, r),
        Instruction::LessDC => less(Base::Unsigned, region, r),
        Instruction::WidenI => widen(Base::Signed, region, r),
        Instruction::WidenC => widen(Base::Unsigned, region, r),
        Instruction::NarrowI => return narrow(Base::Signed, region, r),
        Instruction::NarrowC => return narrow(Base::Unsigned, region, r),
        Instruction::CheckD => return check(region, r),
        _ => return Some(Why::Touches),
    }
    None
}

/// The same, for a run that keeps its registers out of memory: it hands on a copy of them.
#[inline(always)]
pub(crate) fn operate_long(
    instruction: &Instruction,
    region: &mut [u16],
    r: &mut Registers,
) -> Option<Why>
    requires fits { FitsOperator instruction.now (length region.old) r.old }
    requires next { r.old.entry + 1 < usize.MAX }
    ensures { FlowsInRegion (operates_long instruction.now) result region.old region.new r.old r.new }
{
    let mut after = *r;
    let why = operate_apart(instruction, region, &mut after);
    r.sp = after.sp;
    r.entry = after.entry;
    why
}
