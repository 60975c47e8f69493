//! Programs: the heads of their declarations in the order of the text, then the initial values, bodies and statements.
#![tactic(auto)]

mod catches;
mod declaring;
mod found;
mod frames;
mod heads_done;
mod offers;
mod procedures;
mod signals;
mod trying;
mod values;
mod whole;

pub use catches::Catches;
pub use check_heads;
pub use check_heads::check_faces;
pub use check_statement_lists::check_expressions;
pub use found::{Found, ProcedureHead, Stated};
pub use procedures::around_body;
pub use trying::all_declared;
pub use whole::{Whole, program_body};
