//! Images with more of something than four bytes count are too large for a file: a law. No call of the program is here.
#![tactic(auto)]

mod laws;

pub use laws::large_counts_are_large_files;
pub use object_writers;
