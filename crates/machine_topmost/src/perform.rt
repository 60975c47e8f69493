//! One instruction of the topmost activation.

ghost use Rattle.std.specs.Prelude.{◌≡◌, ◌+◌, ◌<◌, ◌≤◌, length, slice_index};
ghost use Rattle.machine_rules.specs.LookUps.{text_of};
ghost use Rattle.machine_topmost.specs.Flat.{Flows, flat};
ghost use Rattle.machine_topmost.specs.Fits.{Fits};

use crate::indexed::{load_global_indexed, load_indexed, store_global_indexed, store_indexed};
use crate::jumps::{jump_if, jump_if_not};
use crate::long_operate::operate_long;
use crate::operate::{
    add, check, divide, equal, index, less, modulo, multiply, negate, not, string_at,
    string_length, subtract,
};
use crate::registers::{Registers, Why};
use crate::routine::Routine;
use crate::variables::{
    literal, load, load_global, pop, roll, store, store_global, string, zero, zero_global,
};
use code_forms::Instruction;
use machine_rules::object_files::Image;
use mesa_types::Base;

/// Does the instruction of a routine where it touches the topmost activation alone; or gives why it is not
/// done, and then all is as it was. `targets` has the number of the entry to which each entry jumps.
#[inline(always)]
#[tactic(auto, unfolding(crate::specs::Flat::flat, crate::specs::Flat::operates, crate::specs::Flat::Flows, crate::specs::Fits::Fits, crate::specs::Fits::FitsOperator))]
pub(crate) fn perform(
    instruction: &Instruction,
    targets: &[u32],
    routine: &Routine,
    region: &mut [u16],
    globals: &mut [u16],
    r: &mut Registers,
    turns: &mut u64,
) -> Option<Why>
    requires fits { Fits instruction.now (length region.old) (length globals.old) r.old }
    requires target { r.old.entry < length targets.now }
    requires number { routine.now.number < 65535 }
    ensures { Flows (flat (text_of routine.now.image.now) routine.now.number instruction.now (slice_index targets.now r.old.entry)
        (record { region = region.old; globals = globals.old; registers = r.old; turns = turns.old })) result
        (record { region = region.old; globals = globals.old; registers = r.old; turns = turns.old })
        (record { region = region.new; globals = globals.new; registers = r.new; turns = turns.new }) }
{
    match *instruction {
        Instruction::Lit { word } => literal(word, region, r),
        Instruction::Str { literal } => string(routine.number, literal, region, r),
        Instruction::LoadL { slot, words } => load(slot, words, region, r),
        Instruction::StoreL { slot, words } => store(slot, words, region, r),
        Instruction::LoadG { slot, words } => load_global(slot, words, globals, region, r),
        Instruction::StoreG { slot, words } => store_global(slot, words, globals, region, r),
        Instruction::LoadLX {
            slot,
            extent,
            words,
        } => {
            return load_indexed(slot, extent, words, region, r);
        }
        Instruction::StoreLX {
            slot,
            extent,
            words,
        } => {
            return store_indexed(slot, extent, words, region, r);
        }
        Instruction::LoadGX {
            slot,
            extent,
            words,
        } => {
            return load_global_indexed(slot, extent, words, globals, region, r);
        }
        Instruction::StoreGX {
            slot,
            extent,
            words,
        } => {
            return store_global_indexed(slot, extent, words, globals, region, r);
        }
        Instruction::Pop { words } => pop(words, r),
        Instruction::Roll { words, over } => roll(words, over, region, r),
        Instruction::ZeroL { slot, words } => zero(slot, words, region, r),
        Instruction::ZeroG { slot, words } => zero_global(slot, words, globals, r),
        Instruction::Jump { .. } => r.entry = targets[r.entry] as usize,
        Instruction::JumpIf { .. } => jump_if(targets, region, r),
        Instruction::JumpIfNot { .. } => jump_if_not(targets, region, r),
        Instruction::JumpBack { .. } => {
            if *turns == 0 {
                return Some(Why::Spent);
            }
            *turns -= 1;
            r.entry = targets[r.entry] as usize;
        }
        Instruction::Index { count, size } => return index(count, size, region, r),
        Instruction::Add => add(region, r),
        Instruction::Sub => subtract(region, r),
        Instruction::Mul => multiply(region, r),
        Instruction::Neg => negate(region, r),
        Instruction::DivI => return divide(Base::Signed, region, r),
        Instruction::ModI => return modulo(Base::Signed, region, r),
        Instruction::DivC => return divide(Base::Unsigned, region, r),
        Instruction::ModC => return modulo(Base::Unsigned, region, r),
        Instruction::Eq => equal(region, r),
        Instruction::LessI => less(Base::Signed, region, r),
        Instruction::LessC => less(Base::Unsigned, region, r),
        Instruction::Not => not(region, r),
        Instruction::CheckI { least, most } => return check(Base::Signed, least, most, region, r),
        Instruction::CheckC { least, most } => return check(Base::Unsigned, least, most, region, r),
        Instruction::StrLen => string_length(routine.image, region, r),
        Instruction::StrAt => return string_at(routine.image, region, r),
        Instruction::AddD
        | Instruction::SubD
        | Instruction::MulD
        | Instruction::NegD
        | Instruction::DivDI
        | Instruction::ModDI
        | Instruction::DivDC
        | Instruction::ModDC
        | Instruction::EqD
        | Instruction::LessDI
        | Instruction::LessDC
        | Instruction::WidenI
        | Instruction::WidenC
        | Instruction::NarrowI
        | Instruction::NarrowC
        | Instruction::CheckD => return operate_long(instruction, region, r),
        _ => return Some(Why::Touches),
    }
    None
}
