//! Statements that hold no statement, and the parts of other statements that hold none: tests of a SELECT, controls of loops.
#![tactic(auto)]

mod controls;
mod holding;
mod inner;
mod selecting;
mod spots;
mod statements;
mod storing;
mod whole;

pub use check_declared;
pub use check_expressions;
pub use check_operands;
pub use check_phrases;
pub use check_selectors;
pub use controls::{Controlled, Counted, control, looped, truth_of};
pub use holding::cases_hold;
pub use selecting::tests;
pub use statements::{assign, call, extract, raise_statement, resume_statement, return_statement};
pub use storing::{target, targets};
pub use whole::{Whole, count_ended};
