//! Modules as their files have them, and how they are let go: the types that they hold are a cycle, and that it may be let go is proved
//! here once.
#![tactic(auto)]

mod many;
mod objects;
mod pile;
mod rows;

pub use many::{ImageHead, ManyRows, with_rows};
pub use objects::{let_objects_go, let_wanted_go, with_object, with_wanted};
pub use pile::Pile;
pub use rows::{Body, ModuleRows};
