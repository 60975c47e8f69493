//! The regions of a procedure's code.

/// A region of a procedure's code: its body, or that of an arm, by the number of the phrase and the arm's number in it.
#[derive(Clone, Copy, PartialEq, Eq)]
pub enum Region {
    Body,
    ArmOf { phrase: usize, arm: usize },
}
