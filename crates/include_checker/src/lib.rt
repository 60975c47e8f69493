//! The plan of texts: in which order to compile them, and which of their objects are stale; or the texts that name each other in a circle.
#![tactic(auto)]

mod arranging;
mod cycle;
mod left;
mod naming;
mod order;
mod planning;
mod stale;

pub use planning::plan;
