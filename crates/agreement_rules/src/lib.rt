//! That the machine does what the source means: the statement, and the law of operators. No call of the program is here.
#![tactic(auto)]

mod laws;

pub use laws::{operators_agree, results_are_words, values_are_arranged};
