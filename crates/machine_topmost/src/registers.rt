//! Where the topmost activation stands, and where and why its run pauses.

use code_forms::Instruction;

/// Where the topmost activation stands: its place, the number of its next entry, where the next operand goes in the region
/// of words, and where its variables begin there. Those that a call writes together don't lie side by side: they would be
/// read back as one before they are written.
#[derive(Clone, Copy)]
pub struct Registers {
    pub top: usize,
    pub entry: usize,
    pub sp: usize,
    pub slots: usize,
}

/// Why the run of the topmost activation pauses at an instruction.
#[derive(Clone, Copy)]
pub enum Why {
    /// It touches more than this activation.
    Touches,
    /// No turn is left for it.
    Spent,
    BoundsFault,
    ZeroDivisor,
}

/// Where and why it pauses.
#[derive(Clone, Copy)]
pub struct Pause {
    pub registers: Registers,
    pub turns: u64,
    pub why: Why,
    /// The instruction at which it pauses.
    pub instruction: Instruction,
}
