//! Statements, blocks and loops: the recursion that holds all of a body.
#![tactic(auto)]

mod blocks;
mod checker;
mod checking;
mod forms;
mod locals;
mod loops;
mod making;
mod numbered;
mod selections;

pub use check_locals;
pub use checking::{block, exits, phrase, statements_behind};
