//! The code of a checked module.
#![tactic(auto)]

mod heads;
mod links;
mod procedures;
mod signals;
mod strings;
mod translation;
mod words;

pub use heads::{Placed, procedure_at};
pub use links::links_of;
pub use procedures::procedures_in;
pub use signals::signals_of;
pub use strings::copied;
pub use translation::{assembled, translate};
pub use words::{all_words, few_words};
