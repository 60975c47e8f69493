//! The operands of an instruction, by their sizes.
ghost use Rattle.std.specs.Prelude.{◌≡◌};
ghost use Rattle.object_writers.specs.CodeBytes.{operands_in};

use code_forms::Instruction;

/// Operands: a word has two bytes, a long number four.
#[derive(Clone, Copy)]
pub(crate) enum Operands {
    Nothing,
    Byte(u8),
    Word(u16),
    TwoWords(u16, u16),
    ThreeWords(u16, u16, u16),
    Long(u32),
    WordAndLong(u16, u32),
}

/// The operands of an instruction, in order.
pub(crate) fn operands_of(instruction: Instruction) -> Operands
    ensures { result ≡ operands_in instruction }
{
    match instruction {
        Instruction::Lit { word } => Operands::Word(word),
        Instruction::Str { literal } => Operands::Word(literal),
        Instruction::LoadL { slot, words } => Operands::TwoWords(slot, words),
        Instruction::StoreL { slot, words } => Operands::TwoWords(slot, words),
        Instruction::LoadG { slot, words } => Operands::TwoWords(slot, words),
        Instruction::StoreG { slot, words } => Operands::TwoWords(slot, words),
        Instruction::LoadLX {
            slot,
            extent,
            words,
        } => Operands::ThreeWords(slot, extent, words),
        Instruction::StoreLX {
            slot,
            extent,
            words,
        } => Operands::ThreeWords(slot, extent, words),
        Instruction::LoadGX {
            slot,
            extent,
            words,
        } => Operands::ThreeWords(slot, extent, words),
        Instruction::StoreGX {
            slot,
            extent,
            words,
        } => Operands::ThreeWords(slot, extent, words),
        Instruction::Index { count, size } => Operands::TwoWords(count, size),
        Instruction::CheckI { least, most } => Operands::TwoWords(least, most),
        Instruction::CheckC { least, most } => Operands::TwoWords(least, most),
        Instruction::Jump { target } => Operands::Long(target),
        Instruction::JumpIf { target } => Operands::Long(target),
        Instruction::JumpIfNot { target } => Operands::Long(target),
        Instruction::JumpBack { target } => Operands::Long(target),
        Instruction::Call { procedure } => Operands::Long(procedure),
        Instruction::CallLink { link } => Operands::Long(link),
        Instruction::Raise { signal } => Operands::Long(signal),
        Instruction::RaiseLink { link } => Operands::Long(link),
        Instruction::RaiseHost { fault } => Operands::Byte(fault),
        Instruction::Resume { words } => Operands::Word(words),
        Instruction::Leave { arms, target } => Operands::WordAndLong(arms, target),
        Instruction::LeaveReturn { arms } => Operands::Word(arms),
        Instruction::Pop { words } => Operands::Word(words),
        Instruction::Roll { words, over } => Operands::TwoWords(words, over),
        Instruction::ZeroL { slot, words } => Operands::TwoWords(slot, words),
        Instruction::ZeroG { slot, words } => Operands::TwoWords(slot, words),
        Instruction::Add
        | Instruction::Sub
        | Instruction::Mul
        | Instruction::Neg
        | Instruction::DivI
        | Instruction::ModI
        | Instruction::DivC
        | Instruction::ModC
        | Instruction::Eq
        | Instruction::LessI
        | Instruction::LessC
        | Instruction::Not
        | Instruction::StrLen
        | Instruction::StrAt
        | Instruction::Return
        | Instruction::ArmEnd
        | Instruction::AddD
        | Instruction::SubD
        | Instruction::MulD
        | Instruction::NegD
        | Instruction::DivDI
        | Instruction::ModDI
        | Instruction::DivDC
        | Instruction::ModDC
        | Instruction::EqD
        | Instruction::LessDI
        | Instruction::LessDC
        | Instruction::WidenI
        | Instruction::WidenC
        | Instruction::NarrowI
        | Instruction::NarrowC
        | Instruction::CheckD => Operands::Nothing,
    }
}
