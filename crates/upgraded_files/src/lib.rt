//! That a file of either version is one of version 2 once its version says so. Laws alone; no call of the program is here.
#![tactic(auto)]

mod laws;

pub use laws::{files_are_upgraded, files_have_versions};
