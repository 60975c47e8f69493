//! Blocks, the arms in them, and where the jumps in them go.
use code_forms::{Instruction, Labels};
use mesa_base::{Boxed, List, Numbers};

/// Instructions one behind the other.
pub type Code = List<Instruction>;

pub type Blocks = List<Block>;

pub type ArmBlocks = List<ArmBlock>;

/// Where the jumps in a part may go: to the start of a numbered statement and to the place after it; to the statements of
/// some labels, which begin where the part ends; or to the end of the part, where the operand stack has so many words more
/// than at its beginning.
#[derive(Drop)]
pub enum Mark {
    Statement(u32),
    Labels(Numbers),
    Here(u32),
}

/// Out of a part: in any case, or where the word on top is true, or where it is not.
#[derive(Clone, Copy)]
pub enum Leap {
    Anyhow,
    Where(bool),
}

/// Where a jump of the text goes: the start of a numbered statement or the place after it, the statements of a numbered
/// label, or the return.
#[derive(Clone, Copy)]
pub enum Point {
    Start(u32),
    After(u32),
    At(u32),
    Leave,
}

/// Which instructions there are, in which order, and where jumps lead. A part to which jumps go, and one in which a phrase is
/// enabled, says how many bytes its code has, without that of its arms.
#[cycle(blocks)]
#[derive(Drop)]
pub enum Block {
    /// Instructions that jump nowhere.
    Does(Code),
    /// A call or a raise, which takes and puts so many words, with the arms of its phrase.
    Calls(Instruction, u32, u32, ArmBlocks),
    /// One behind the other, the last one by itself.
    Sequence(Blocks, Boxed<Block>),
    /// A part to which the jumps in it may go.
    Ends(Mark, u32, Boxed<Block>),
    /// A jump to the end of a part around, a `Here`, of which the innermost one is number 0.
    Out(Leap, u32),
    /// A jump of the text, out of so many arms to a point.
    Goes(u16, Point),
    /// What is done again and again.
    Rounds(Boxed<Block>),
    /// A part in which a phrase with these arms is enabled.
    Enables(ArmBlocks, u32, Boxed<Block>),
}

/// An arm of a phrase: its labels, the slot and the number of its parameters' words, and its block.
#[cycle(blocks)]
#[derive(Drop)]
pub struct ArmBlock {
    pub labels: Labels,
    pub slot: u16,
    pub words: u16,
    pub body: Block,
}
