//! Trees that are made of configurations offer each export and start each instance once at most: laws alone. No call of the program is here.
#![tactic(auto)]

mod laws;

pub use laws::{made_trees_are_short, singles_are_short};
