//! The listings of interfaces, objects and images, written behind a text.
#![tactic(auto)]

mod catching;
mod code;
mod digits;
mod images;
mod interfaces;
mod labels;
mod lines;
mod names;
mod objects;
mod texts;
mod types;

pub use images::put_image;
pub use interfaces::put_interface;
pub use objects::put_object;
