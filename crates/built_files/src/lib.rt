//! Which objects have files: laws alone. No call of the program is here.
#![tactic(auto)]

mod laws;

pub use laws::{objects_of_modules_are_whole, objects_of_modules_fit, spelled_objects_fit};
