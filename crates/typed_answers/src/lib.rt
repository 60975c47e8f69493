//! What is asked of types, of words and of constant expressions.
#![tactic(auto)]

mod constants;
pub mod long_operators;
mod operators;
mod sameness;
mod sizes;

pub use constants::constant;
pub use mesa_types;
pub use mesa_types::held_trees;
pub use operators::{fits, opposite, quotient, related, remainder, truth};
pub use sameness::{base, conforms, same_fields, same_name, same_type, same_types};
pub use sizes::{depth, elements, fields_words, is_within_limits, longest_enumeration, size_words};
