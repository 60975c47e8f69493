//! That neither the machine nor a survey looks at the depths beside instructions. Laws; no call of the program is here.
#![tactic(auto)]

mod laws;

pub use laws::{depths_do_not_matter, surveys_are_one};
