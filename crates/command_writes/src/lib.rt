//! Files that are written, one after the other: the file of one value, and those of a program, its objects and then its image.
#![tactic(auto)]

mod files;
mod programs;

pub use files::file_written;
pub use programs::program_written;
