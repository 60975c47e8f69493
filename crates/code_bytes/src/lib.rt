//! The numbers of the code that is chosen for a sound module have the bytes that files have for them: a law. No call of the
//! program is here.
#![tactic(auto)]

mod laws;

pub use laws::chosen_codes_are_in_bytes;
