//! What the checker knows of a module throughout: its name and stamp, its string literals, the tokens of its records and enumerations,
//! and what the items of its DIRECTORY offer.
#![tactic(auto)]

mod known;

pub use check_directory;
pub use known::known_of;
