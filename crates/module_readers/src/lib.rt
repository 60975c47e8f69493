//! The readers of a module's rows in an object file: signals, strings, catch phrases and procedures.
#![tactic(auto)]

mod catching;
mod code;
mod counts;
mod instructions;
mod making;
mod operands;
mod procedure_rows;
mod signal_rows;
mod string_rows;

pub use counts::{count_up_to, words_up_to};
pub use procedure_rows::procedures;
pub use signal_rows::signals;
pub use string_rows::strings;
