//! The checker: what a text means as a typed module or an interface, or its first fault.
#![tactic(auto)]

mod interfaces;
mod modules;
mod starting;

pub use interfaces::check_definitions;
pub use modules::check;
