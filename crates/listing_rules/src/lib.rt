//! The listings of interfaces, objects and images: which text each prints as. Definitions and laws alone; no call of the program is here.
#![tactic(auto)]

mod laws;

pub use laws::same_objects_have_one_listing;
