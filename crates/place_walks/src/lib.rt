//! Walks over the places at which signals come (rule of this project).
#![tactic(auto)]

mod edges;
mod place;
mod table;
mod walk;

pub use edges::{Edge, fill};
pub use place::Place;
pub use table::Table;
pub use walk::{Walk, is_marked, visit, visit_all};
