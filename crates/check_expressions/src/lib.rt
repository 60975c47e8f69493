//! The recursion over expressions: operators, names with what follows them, lists of values, calls, constructors and raises.
#![tactic(auto)]

mod expressions;
mod lists;
mod literals;
mod operators;
mod phrases;

pub use check_operands;
pub use expressions::Checker;
pub use phrases::Phrases;
