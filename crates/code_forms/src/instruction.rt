//! Instructions, with the number, the length and the name of each.
ghost use Rattle.std.specs.Prelude.{◌≡◌};
ghost use Rattle.code_forms.specs.Instructions.{number_of, bytes_of, name_of};

/// An instruction. Words have 16 bits, targets are offsets in bytes, and what it does is said over the words on the
/// operand stack.
#[derive(Clone, Copy)]
pub enum Instruction {
    /// Pushes the word.
    Lit { word: u16 },
    /// Pushes the string literal: the module's number plus 1, then the literal's, counted from 1.
    Str { literal: u16 },
    /// Pushes, pops so many words of the frame from a slot on.
    LoadL { slot: u16, words: u16 },
    StoreL { slot: u16, words: u16 },
    /// Pushes, pops so many words of the globals from a slot on.
    LoadG { slot: u16, words: u16 },
    StoreG { slot: u16, words: u16 },
    /// The same of the frame at a slot plus an offset. The load pops the offset, the store pops the words and then the
    /// offset. `BoundsFault` where the offset plus the words is above the extent.
    LoadLX { slot: u16, extent: u16, words: u16 },
    StoreLX { slot: u16, extent: u16, words: u16 },
    /// The same of the globals.
    LoadGX { slot: u16, extent: u16, words: u16 },
    StoreGX { slot: u16, extent: u16, words: u16 },
    /// Pops an index and an offset, and pushes the offset plus the index times the size. `BoundsFault` where the index
    /// is not below the count.
    Index { count: u16, size: u16 },
    /// Modulo 2^16; the word pushed first is on the left.
    Add,
    Sub,
    Mul,
    Neg,
    /// Signed, and unsigned; `ZeroDivisor` by 0.
    DivI,
    ModI,
    DivC,
    ModC,
    /// Push 1 or 0, `LessI` over signed words; `Not` gives 1 for 0.
    Eq,
    LessI,
    LessC,
    Not,
    /// `BoundsFault` where the word on top, signed or unsigned, is outside these; it stays.
    CheckI { least: u16, most: u16 },
    CheckC { least: u16, most: u16 },
    /// Go forward; the last two pop a word, and go where it is not 0, where it is 0.
    Jump { target: u32 },
    JumpIf { target: u32 },
    JumpIfNot { target: u32 },
    /// Spends a turn and goes back.
    JumpBack { target: u32 },
    /// Pops a string and pushes its length.
    StrLen,
    /// Pops an index and a string, and pushes the byte; `BoundsFault` past its end.
    StrAt,
    /// Pop the arguments, and push the results at the return.
    Call { procedure: u32 },
    CallLink { link: u32 },
    /// Gives the result slots to the caller.
    Return,
    /// Pop the arguments, and push the results when resumed.
    Raise { signal: u32 },
    RaiseLink { link: u32 },
    /// 0 is `BoundsFault`, 1 `ZeroDivisor`, 2 the unnamed error.
    RaiseHost { fault: u8 },
    /// Rejects.
    ArmEnd,
    /// Pops so many words for the raiser.
    Resume { words: u16 },
    /// Out of so many arms, to the target or to return.
    Leave { arms: u16, target: u32 },
    LeaveReturn { arms: u16 },
    /// Drops so many words.
    Pop { words: u16 },
    /// Brings so many words, which lie under the topmost ones, to the top.
    Roll { words: u16, over: u16 },
    /// Sets so many words of the frame, of the globals to 0.
    ZeroL { slot: u16, words: u16 },
    ZeroG { slot: u16, words: u16 },
    /// Of LONG numbers, each of two words, the more significant one pushed first: modulo 2^32; the number pushed first is
    /// on the left.
    AddD,
    SubD,
    MulD,
    NegD,
    /// Signed, and unsigned; `ZeroDivisor` by 0.
    DivDI,
    ModDI,
    DivDC,
    ModDC,
    /// Push the word 1 or 0, `LessDI` over signed numbers.
    EqD,
    LessDI,
    LessDC,
    /// Pop a word, signed or unsigned, and push the number.
    WidenI,
    WidenC,
    /// Pop a signed number, and push the word; `BoundsFault` outside -32768 to 32767, outside 0 to 65535.
    NarrowI,
    NarrowC,
    /// `BoundsFault` where the first bit of the number on top is 1; it stays.
    CheckD,
}

impl Instruction {
    /// The number of the instruction, which is its first byte in a file.
    pub fn number(&self) -> u8
        ensures { result ≡ number_of self.now }
    {
        match self {
            Instruction::Lit { .. } => 0x01,
            Instruction::Str { .. } => 0x02,
            Instruction::LoadL { .. } => 0x03,
            Instruction::StoreL { .. } => 0x04,
            Instruction::LoadG { .. } => 0x05,
            Instruction::StoreG { .. } => 0x06,
            Instruction::LoadLX { .. } => 0x07,
            Instruction::StoreLX { .. } => 0x08,
            Instruction::LoadGX { .. } => 0x09,
            Instruction::StoreGX { .. } => 0x0A,
            Instruction::Index { .. } => 0x0B,
            Instruction::Add => 0x0C,
            Instruction::Sub => 0x0D,
            Instruction::Mul => 0x0E,
            Instruction::Neg => 0x0F,
            Instruction::DivI => 0x10,
            Instruction::ModI => 0x11,
            Instruction::DivC => 0x12,
            Instruction::ModC => 0x13,
            Instruction::Eq => 0x14,
            Instruction::LessI => 0x15,
            Instruction::LessC => 0x16,
            Instruction::Not => 0x17,
            Instruction::CheckI { .. } => 0x18,
            Instruction::CheckC { .. } => 0x19,
            Instruction::Jump { .. } => 0x1A,
            Instruction::JumpIf { .. } => 0x1B,
            Instruction::JumpIfNot { .. } => 0x1C,
            Instruction::JumpBack { .. } => 0x1D,
            Instruction::StrLen => 0x1E,
            Instruction::StrAt => 0x1F,
            Instruction::Call { .. } => 0x20,
            Instruction::CallLink { .. } => 0x21,
            Instruction::Return => 0x22,
            Instruction::Raise { .. } => 0x23,
            Instruction::RaiseLink { .. } => 0x24,
            Instruction::RaiseHost { .. } => 0x25,
            Instruction::ArmEnd => 0x26,
            Instruction::Resume { .. } => 0x27,
            Instruction::Leave { .. } => 0x28,
            Instruction::LeaveReturn { .. } => 0x29,
            Instruction::Pop { .. } => 0x2A,
            Instruction::Roll { .. } => 0x2B,
            Instruction::ZeroL { .. } => 0x2C,
            Instruction::ZeroG { .. } => 0x2D,
            Instruction::AddD => 0x2E,
            Instruction::SubD => 0x2F,
            Instruction::MulD => 0x30,
            Instruction::NegD => 0x31,
            Instruction::DivDI => 0x32,
            Instruction::ModDI => 0x33,
            Instruction::DivDC => 0x34,
            Instruction::ModDC => 0x35,
            Instruction::EqD => 0x36,
            Instruction::LessDI => 0x37,
            Instruction::LessDC => 0x38,
            Instruction::WidenI => 0x39,
            Instruction::WidenC => 0x3A,
            Instruction::NarrowI => 0x3B,
            Instruction::NarrowC => 0x3C,
            Instruction::CheckD => 0x3D,
        }
    }

    /// The length in bytes.
    pub fn bytes(&self) -> u32
        ensures { result ≡ bytes_of self.now }
    {
        match self {
            Instruction::Add
            | Instruction::Sub
            | Instruction::Mul
            | Instruction::Neg
            | Instruction::DivI
            | Instruction::ModI
            | Instruction::DivC
            | Instruction::ModC
            | Instruction::Eq
            | Instruction::LessI
            | Instruction::LessC
            | Instruction::Not
            | Instruction::StrLen
            | Instruction::StrAt
            | Instruction::Return
            | Instruction::ArmEnd
            | Instruction::AddD
            | Instruction::SubD
            | Instruction::MulD
            | Instruction::NegD
            | Instruction::DivDI
            | Instruction::ModDI
            | Instruction::DivDC
            | Instruction::ModDC
            | Instruction::EqD
            | Instruction::LessDI
            | Instruction::LessDC
            | Instruction::WidenI
            | Instruction::WidenC
            | Instruction::NarrowI
            | Instruction::NarrowC
            | Instruction::CheckD => 1,
            Instruction::RaiseHost { .. } => 2,
            Instruction::Lit { .. }
            | Instruction::Str { .. }
            | Instruction::Resume { .. }
            | Instruction::LeaveReturn { .. }
            | Instruction::Pop { .. } => 3,
            Instruction::LoadL { .. }
            | Instruction::StoreL { .. }
            | Instruction::LoadG { .. }
            | Instruction::StoreG { .. }
            | Instruction::Index { .. }
            | Instruction::CheckI { .. }
            | Instruction::CheckC { .. }
            | Instruction::Jump { .. }
            | Instruction::JumpIf { .. }
            | Instruction::JumpIfNot { .. }
            | Instruction::JumpBack { .. }
            | Instruction::Call { .. }
            | Instruction::CallLink { .. }
            | Instruction::Raise { .. }
            | Instruction::RaiseLink { .. }
            | Instruction::Roll { .. }
            | Instruction::ZeroL { .. }
            | Instruction::ZeroG { .. } => 5,
            Instruction::LoadLX { .. }
            | Instruction::StoreLX { .. }
            | Instruction::LoadGX { .. }
            | Instruction::StoreGX { .. }
            | Instruction::Leave { .. } => 7,
        }
    }

    /// The name, as in a listing.
    pub fn name(&self) -> &'static str
        ensures { result.now ≡ name_of self.now }
    {
        match self {
            Instruction::Lit { .. } => "Lit",
            Instruction::Str { .. } => "Str",
            Instruction::LoadL { .. } => "LoadL",
            Instruction::StoreL { .. } => "StoreL",
            Instruction::LoadG { .. } => "LoadG",
            Instruction::StoreG { .. } => "StoreG",
            Instruction::LoadLX { .. } => "LoadLX",
            Instruction::StoreLX { .. } => "StoreLX",
            Instruction::LoadGX { .. } => "LoadGX",
            Instruction::StoreGX { .. } => "StoreGX",
            Instruction::Index { .. } => "Index",
            Instruction::Add => "Add",
            Instruction::Sub => "Sub",
            Instruction::Mul => "Mul",
            Instruction::Neg => "Neg",
            Instruction::DivI => "DivI",
            Instruction::ModI => "ModI",
            Instruction::DivC => "DivC",
            Instruction::ModC => "ModC",
            Instruction::Eq => "Eq",
            Instruction::LessI => "LessI",
            Instruction::LessC => "LessC",
            Instruction::Not => "Not",
            Instruction::CheckI { .. } => "CheckI",
            Instruction::CheckC { .. } => "CheckC",
            Instruction::Jump { .. } => "Jump",
            Instruction::JumpIf { .. } => "JumpIf",
            Instruction::JumpIfNot { .. } => "JumpIfNot",
            Instruction::JumpBack { .. } => "JumpBack",
            Instruction::StrLen => "StrLen",
            Instruction::StrAt => "StrAt",
            Instruction::Call { .. } => "Call",
            Instruction::CallLink { .. } => "CallLink",
            Instruction::Return => "Return",
            Instruction::Raise { .. } => "Raise",
            Instruction::RaiseLink { .. } => "RaiseLink",
            Instruction::RaiseHost { .. } => "RaiseHost",
            Instruction::ArmEnd => "ArmEnd",
            Instruction::Resume { .. } => "Resume",
            Instruction::Leave { .. } => "Leave",
            Instruction::LeaveReturn { .. } => "LeaveReturn",
            Instruction::Pop { .. } => "Pop",
            Instruction::Roll { .. } => "Roll",
            Instruction::ZeroL { .. } => "ZeroL",
            Instruction::ZeroG { .. } => "ZeroG",
            Instruction::AddD => "AddD",
            Instruction::SubD => "SubD",
            Instruction::MulD => "MulD",
            Instruction::NegD => "NegD",
            Instruction::DivDI => "DivDI",
            Instruction::ModDI => "ModDI",
            Instruction::DivDC => "DivDC",
            Instruction::ModDC => "ModDC",
            Instruction::EqD => "EqD",
            Instruction::LessDI => "LessDI",
            Instruction::LessDC => "LessDC",
            Instruction::WidenI => "WidenI",
            Instruction::WidenC => "WidenC",
            Instruction::NarrowI => "NarrowI",
            Instruction::NarrowC => "NarrowC",
            Instruction::CheckD => "CheckD",
        }
    }
}
