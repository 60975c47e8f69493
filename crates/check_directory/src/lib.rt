//! What stands around a module's body: its DIRECTORY with the interfaces that are given for it, and the lists that name them.
#![tactic(auto)]

mod directories;
mod elements;
mod entries;
mod errors;
mod found;
mod interface_names;
mod lists;
mod module_lists;
mod offers;
mod openings;
mod positions;
mod restricted;

pub use directories::{directory, directory_scope};
pub use errors::predeclared;
pub use found::those_of;
pub use lists::listed;
pub use module_lists::all_listed;
pub use openings::{offered, opened};
pub use positions::{directory_places, places};
