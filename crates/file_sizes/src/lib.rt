//! How many bytes interfaces, objects and images take in files: laws alone. No call of the program is here.
#![tactic(auto)]

mod laws;

pub use laws::{images_are_sized, interfaces_are_sized, objects_are_sized};
