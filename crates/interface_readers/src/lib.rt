//! The readers of interface files and of their parts.
#![tactic(auto)]

mod constants;
mod faces;
mod interfaces;
mod labels;
mod named_types;
mod ordinals;
mod parts;
mod trees;

pub use faces::{face, item};
pub use interfaces::{read_interface, version};
pub use ordinals::holds;
pub use parts::{read_face, read_item, read_name};
pub use trees::{fields, type_tree};
