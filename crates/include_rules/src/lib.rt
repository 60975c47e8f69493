//! In which order texts are compiled, which objects are stale, and where no order exists: definitions and laws; no call of the program is here
//! (rule of this project).
#![tactic(auto)]

mod entries;
mod laws;
mod letting;
mod plan;

pub use entries::{FileEntries, FileEntry, TextEntries, TextEntry};
pub use laws::{cycles_have_no_order, orders_follow_names, plans_come_once};
pub use plan::{Plan, PlanFault};
