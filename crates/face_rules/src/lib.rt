//! Types, items, faces and interfaces in files: a form for each row of the format, and the laws of each. No call of the program is here.
#![tactic(auto)]

mod sort;
mod value_bytes;

pub use sort::Sort;
pub use value_bytes::has_long_values;
