//! The run of the topmost activation alone.
#![tactic(auto)]

mod indexed;
mod jumps;
mod laws;
mod long_operate;
mod operate;
mod perform;
mod region;
mod registers;
mod routine;
mod runner;
mod texts;
mod variables;

pub use laws::works_as_defined;
pub use registers::{Pause, Registers, Why};
pub use routine::Routine;
pub use runner::quiet;
