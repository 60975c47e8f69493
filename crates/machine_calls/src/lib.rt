//! Calls of the frame machine through links: of procedures of other instances, with their starts, and of the host's.
#![tactic(auto)]

mod ahead;
mod host;
mod linking;
mod look_ups;
mod reading;
mod writing;

pub use ahead::{Coming, look};
pub use host::{HostProcedure, Reading, Writing};
pub use linking::{LinkSequel, call_again, call_link, writing_called};
pub use reading::{ReadSequel, read};
pub use writing::write;
