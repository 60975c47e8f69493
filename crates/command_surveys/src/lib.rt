//! The survey of an image, from its file in a folder: a line for each signal that may escape it.
#![tactic(auto)]

mod lines;
mod names;
mod surveying;

pub use surveying::survey_of_file;
