//! Heads of procedures, signals and errors, what interfaces declare, and declarations that are tried again.
#![tactic(auto)]

mod again;
mod definitions;
mod headings;
mod heads;
mod interfaces;
mod items;
mod naming;
mod scopes;

pub use again::{Tries, second_fault};
pub use check_faces;
pub use definitions::AllDefined;
pub use headings::heading;
pub use heads::Heading;
pub use interfaces::{Starts, all_defined};
