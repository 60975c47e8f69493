//! What is wrong with code, and in which procedure.

/// What is wrong with a procedure's code, each with an offset in it.
#[derive(Clone, Copy, PartialEq, Eq)]
pub enum CodeFault {
    /// The jump at the offset leads where none may.
    BadJump(u32),
    /// The instruction at the offset breaks the rules on the depth of the operand stack.
    StackDiffers(u32),
    /// The instruction at the offset has an operand out of range or stands where it may not, or the arm that begins
    /// there has.
    BadOperand(u32),
    /// The phrase whose range begins at the offset breaks the rules on ranges and regions.
    CatchRange(u32),
}

/// The first procedure with a fault, by its number, and that fault.
#[derive(Clone, Copy)]
pub struct BadCode {
    pub procedure: u32,
    pub fault: CodeFault,
}
