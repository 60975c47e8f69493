//! Words that are counted in typed trees: the hidden ones of a statement, and those of a value.
#![tactic(auto)]

mod hidden;
mod values;

pub use hidden::hidden_words;
pub use values::value_words;
