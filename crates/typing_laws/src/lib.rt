//! Laws of the definition of checking. No call of the program is here.
#![tactic(auto)]

pub mod laws;
