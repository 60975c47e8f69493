//! An image that is linked from objects which files can spell has a file: laws alone. No call of the program is here.
#![tactic(auto)]

mod laws;

pub use laws::linked_images_fit;
