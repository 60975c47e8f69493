//! The listings of files: which text is that of a file's bytes, and the first fault of bytes that have none. Definitions and laws alone;
//! no call of the program is here.
#![tactic(auto)]

mod file_kind;
mod laws;

pub use file_kind::FileKind;
pub use laws::{listing_or_fault, one_fault, one_listing, same_images_have_one_listing};
