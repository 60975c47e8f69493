//! The code of a procedure, written from the tree of blocks of its body.
#![tactic(auto)]

mod arms;
mod cursor;
mod draft;
mod laws;
mod leap;
mod procedure;
mod scope;
mod writing;

pub use laws::bodies_can_be_written;
pub use procedure::{FrameWords, WrittenCode, write_code, write_procedure};
