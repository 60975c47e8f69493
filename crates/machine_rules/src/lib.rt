//! What the frame machine does, step by step, and the laws of it. No call of the program is here.
#![tactic(auto)]

mod end;
mod laws;

pub use end::End;
pub use laws::{ends_at_most_once, jumps_of_runs_unwind, jumps_unwind, never_stuck, one_result};
pub use object_files;
pub use object_files::typed_answers;
pub use signaller;
