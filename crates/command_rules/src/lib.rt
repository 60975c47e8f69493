//! What comes of a command line: the passes over the files of a folder that each form goes through, what ends a call and the line that says so,
//! and what a run is. Definitions and laws; no call of the program is here.
#![tactic(auto)]

mod trouble;

pub use checked_texts;
pub use linked_programs;
pub use trouble::Trouble;
