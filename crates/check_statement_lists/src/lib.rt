//! Statements one after the other, arms of catch phrases, and the statements of labels, over what checks one statement that stands inside.
#![tactic(auto)]

mod endings;
mod lists;
mod nesting;
mod phrases;

pub use check_declared;
pub use check_declared::check_jumps;
pub use check_expressions;
pub use endings::Left;
pub use nesting::{Nested, StatementFunction};
pub use phrases::NestedChecker;
