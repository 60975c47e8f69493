//! How a command line's words are read, and how a call of the program is answered: the line on `err`, and the status.
#![tactic(auto)]

mod causes;
mod ending;
mod form;
mod items;
mod kinds;
mod loads;
mod plan_words;
mod refusals;
mod run_words;
mod stops;
mod words;

pub use command_passes;
pub use ending::{Ending, UncaughtSignal, ending_status, tell_ending, told_ending, told_usage};
pub use form::{Form, form_of};
pub use kinds::Source;
pub use stops::{stop_status, tell_stop, told_stop};
