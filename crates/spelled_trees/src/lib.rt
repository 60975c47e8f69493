//! The trees of configurations have paths and records that files can spell: laws alone. No call of the program is here.
#![tactic(auto)]

mod laws;

pub use laws::{parsed_names_are_names, singles_can_be_spelled, trees_can_be_spelled};
