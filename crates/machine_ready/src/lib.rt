//! Images that are ready to run: whether the host has what they want, and all that the run needs beside them.
#![tactic(auto)]

mod fault;
mod globals;
mod hosts;
mod innermost;
mod law;
mod links;
mod machine;
mod openings;
mod plan;
mod prepared;
mod sizes;
mod targets;

pub use fault::ReadyFault;
pub use hosts::{is_host_item, named_item};
pub use law::{
    none_unresolved, one_unresolved, ordered_can_run, parts_fit, plans_are_there, ready_can_run,
    ready_has_depths, ready_is_prepared,
};
pub use machine::{Machine, ready};
pub use openings::Opening;
pub use plan::{Plan, Plans};
pub use prepared::{Prepared, Tables};
