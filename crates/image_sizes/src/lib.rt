//! The image that is linked from a tree is bounded by the sizes of the texts: laws alone. No call of the program is here.
#![tactic(auto)]

mod laws;

pub use laws::{linked_images_are_short, linked_images_are_sized};
