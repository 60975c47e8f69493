//! The limits of a procedure's code that its form in a file sets, which are rules of this project. Definitions and code
//! name them from here, and those of the language from `mesa_base`.

/// The most words of a procedure's frame.
pub const FRAME_WORDS: u16 = 2_048;

/// The most words of a procedure's operand stack.
pub const STACK_WORDS: u32 = 65_535;
