//! Trials of the built-in interface.
#![tactic(auto)]

#[cfg(test)]
mod built_in;
