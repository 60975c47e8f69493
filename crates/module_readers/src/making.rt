//! Instructions of their number and their operands.
ghost use Rattle.std.specs.Prelude.{◌≡◌, ◌≤◌, [], ◌∷◌};
ghost use Rattle.module_readers.specs.Behind.{IsNumber};
ghost use Rattle.object_rules.specs.Instructions.{sizes_of, with_operands};

use code_forms::Instruction;

#[tactic(auto, unfolding(object_rules::specs::Instructions::with_operands))]
pub(crate) fn of_none(number: u8) -> Instruction
    requires there { IsNumber number }
    requires sizes { sizes_of number ≡ [] }
    ensures { result ≡ with_operands number 0 0 0 }
{
    if number >= 0x2E {
        return of_longs(number);
    }
    match number {
        0x0C => Instruction::Add,
        0x0D => Instruction::Sub,
        0x0E => Instruction::Mul,
        0x0F => Instruction::Neg,
        0x10 => Instruction::DivI,
        0x11 => Instruction::ModI,
        0x12 => Instruction::DivC,
        0x13 => Instruction::ModC,
        0x14 => Instruction::Eq,
        0x15 => Instruction::LessI,
        0x16 => Instruction::LessC,
        0x17 => Instruction::Not,
        0x1E => Instruction::StrLen,
        0x1F => Instruction::StrAt,
        0x22 => Instruction::Return,
        _ => Instruction::ArmEnd,
    }
}

// The instructions over LONG numbers.
#[tactic(auto, unfolding(object_rules::specs::Instructions::with_operands))]
fn of_longs(number: u8) -> Instruction
    requires there { IsNumber number }
    requires long { 46 ≤ number }
    ensures { result ≡ with_operands number 0 0 0 }
{
    match number {
        0x2E => Instruction::AddD,
        0x2F => Instruction::SubD,
        0x30 => Instruction::MulD,
        0x31 => Instruction::NegD,
        0x32 => Instruction::DivDI,
        0x33 => Instruction::ModDI,
        0x34 => Instruction::DivDC,
        0x35 => Instruction::ModDC,
        0x36 => Instruction::EqD,
        0x37 => Instruction::LessDI,
        0x38 => Instruction::LessDC,
        0x39 => Instruction::WidenI,
        0x3A => Instruction::WidenC,
        0x3B => Instruction::NarrowI,
        0x3C => Instruction::NarrowC,
        _ => Instruction::CheckD,
    }
}

#[tactic(auto, unfolding(object_rules::specs::Instructions::with_operands))]
pub(crate) fn of_word(number: u8, word: u16) -> Instruction
    requires there { IsNumber number }
    requires sizes { sizes_of number ≡ 2 ∷ [] }
    ensures { result ≡ with_operands number word 0 0 }
{
    match number {
        0x01 => Instruction::Lit { word },
        0x02 => Instruction::Str { literal: word },
        0x27 => Instruction::Resume { words: word },
        0x29 => Instruction::LeaveReturn { arms: word },
        _ => Instruction::Pop { words: word },
    }
}

#[tactic(auto, unfolding(object_rules::specs::Instructions::with_operands))]
pub(crate) fn of_words(number: u8, first: u16, second: u16) -> Instruction
    requires there { IsNumber number }
    requires sizes { sizes_of number ≡ 2 ∷ 2 ∷ [] }
    ensures { result ≡ with_operands number first second 0 }
{
    match number {
        0x03 => Instruction::LoadL {
            slot: first,
            words: second,
        },
        0x04 => Instruction::StoreL {
            slot: first,
            words: second,
        },
        0x05 => Instruction::LoadG {
            slot: first,
            words: second,
        },
        0x06 => Instruction::StoreG {
            slot: first,
            words: second,
        },
        0x0B => Instruction::Index {
            count: first,
            size: second,
        },
        0x18 => Instruction::CheckI {
            least: first,
            most: second,
        },
        0x19 => Instruction::CheckC {
            least: first,
            most: second,
        },
        0x2B => Instruction::Roll {
            words: first,
            over: second,
        },
        0x2C => Instruction::ZeroL {
            slot: first,
            words: second,
        },
        _ => Instruction::ZeroG {
            slot: first,
            words: second,
        },
    }
}

#[tactic(auto, unfolding(object_rules::specs::Instructions::with_operands))]
pub(crate) fn of_three(number: u8, slot: u16, extent: u16, words: u16) -> Instruction
    requires there { IsNumber number }
    requires sizes { sizes_of number ≡ 2 ∷ 2 ∷ 2 ∷ [] }
    ensures { result ≡ with_operands number slot extent words }
{
    match number {
        0x07 => Instruction::LoadLX {
            slot,
            extent,
            words,
        },
        0x08 => Instruction::StoreLX {
            slot,
            extent,
            words,
        },
        0x09 => Instruction::LoadGX {
            slot,
            extent,
            words,
        },
        _ => Instruction::StoreGX {
            slot,
            extent,
            words,
        },
    }
}

#[tactic(auto, unfolding(object_rules::specs::Instructions::with_operands))]
pub(crate) fn of_number(number: u8, operand: u32) -> Instruction
    requires there { IsNumber number }
    requires sizes { sizes_of number ≡ 4 ∷ [] }
    ensures { result ≡ with_operands number operand 0 0 }
{
    match number {
        0x1A => Instruction::Jump { target: operand },
        0x1B => Instruction::JumpIf { target: operand },
        0x1C => Instruction::JumpIfNot { target: operand },
        0x1D => Instruction::JumpBack { target: operand },
        0x20 => Instruction::Call { procedure: operand },
        0x21 => Instruction::CallLink { link: operand },
        0x23 => Instruction::Raise { signal: operand },
        _ => Instruction::RaiseLink { link: operand },
    }
}
