//! The plan of texts, from the files of a folder: in which order they are compiled, which of their objects are stale, and which of the files that are
//! made of them are not there.
#![tactic(auto)]

mod found;
mod gathered;
mod made;
mod planning;
mod report;
mod texts;

pub use planning::{PlanReport, plan_of_files};
