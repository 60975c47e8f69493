//! The file of an image: the counts that no form of the parts bounds are looked at before a byte is spelled.
#![tactic(auto)]

mod filing;

pub use filing::image_file;
