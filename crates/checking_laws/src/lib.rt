//! Laws of checking: how many items a module uses, and which texts have a fault of the stamp. No call of the program is here.
#![tactic(auto)]

pub mod laws;
