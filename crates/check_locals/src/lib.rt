//! One declaration of a type, of variables or of a constant: its head, and what it does when it is reached.
#![tactic(auto)]

mod headed;
mod heads;
mod initials;

pub use headed::Headed;
pub use heads::head;
pub use initials::initial;
