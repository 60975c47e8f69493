//! What is made from a text is bounded by the text's size: laws alone. No call of the program is here.
#![tactic(auto)]

mod laws;

pub use laws::{instances_are_short, objects_are_short};
