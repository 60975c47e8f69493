//! Forms of files: fields that are read from the left, each with its rule, up to the first that breaks one.
#![tactic(auto)]

mod cursor;
mod opening;
mod seen;
mod stopped;
mod value;
mod writer;

pub use cursor::FileCursor;
pub use opening::{fault_at, opened};
pub use seen::Seen;
pub use stopped::Stopped;
pub use writer::FileWriter;
