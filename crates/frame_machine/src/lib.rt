//! The run of an image that is ready.
#![tactic(auto)]

mod clearing;
mod happening;
mod hosting;
mod look_ups;
mod machine;
mod onward;
mod outcome;
mod remaining;
mod running;
mod standing;
mod topmost;
mod touching;

pub use machine::run;
pub use machine_ready;
pub use outcome::{Outcome, RunFault};
