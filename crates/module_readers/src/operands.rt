//! Which operands an instruction has.
ghost use Rattle.std.specs.Prelude.{◌≡◌, suc, sum};
ghost use Rattle.module_readers.specs.Operands.{sizes_in};
ghost use Rattle.object_rules.specs.Instructions.{sizes_of};

/// The operands of an instruction: words of two bytes, numbers of four, or a byte.
#[derive(Clone, Copy)]
pub(crate) enum Operands {
    Plain,
    Word,
    Words,
    ThreeWords,
    Number,
    Byte,
    WordAndNumber,
}

impl Operands {
    /// Of the instruction with this number.
    #[tactic(auto, unfolding(object_rules::specs::Instructions::sizes_of))]
    pub(crate) fn of(number: u8) -> Operands
        ensures { sizes_in result ≡ sizes_of number }
    {
        if number <= 0x02 {
            return Operands::Word;
        }
        if number <= 0x06 {
            return Operands::Words;
        }
        if number <= 0x0A {
            return Operands::ThreeWords;
        }
        if number <= 0x0B {
            return Operands::Words;
        }
        if number <= 0x17 {
            return Operands::Plain;
        }
        if number <= 0x19 {
            return Operands::Words;
        }
        if number <= 0x1D {
            return Operands::Number;
        }
        if number <= 0x1F {
            return Operands::Plain;
        }
        if number <= 0x21 {
            return Operands::Number;
        }
        if number <= 0x22 {
            return Operands::Plain;
        }
        if number <= 0x24 {
            return Operands::Number;
        }
        if number <= 0x25 {
            return Operands::Byte;
        }
        if number <= 0x26 {
            return Operands::Plain;
        }
        if number <= 0x27 {
            return Operands::Word;
        }
        if number <= 0x28 {
            return Operands::WordAndNumber;
        }
        if number <= 0x2A {
            return Operands::Word;
        }
        if number <= 0x2D {
            return Operands::Words;
        }
        Operands::Plain
    }

    /// The bytes of the instruction, its number included.
    pub(crate) fn size(self) -> u32
        ensures { result ≡ suc (sum (sizes_in self)) }
    {
        match self {
            Operands::Plain => 1,
            Operands::Byte => 2,
            Operands::Word => 3,
            Operands::Words | Operands::Number => 5,
            Operands::ThreeWords | Operands::WordAndNumber => 7,
        }
    }
}
