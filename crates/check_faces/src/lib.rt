//! What a module shows its outside and its outside shows it: the names that it declares, before it is read; what it imports and
//! exports.
#![tactic(auto)]

mod declared_names;
mod exports;
mod imports;

pub use declared_names::{ahead, ahead_in_interface};
pub use exports::{Offer, exported};
pub use imports::{imported, unused};
