//! Trials of the checker's two calls, on texts.
#![tactic(auto)]

#[cfg(test)]
mod definitions;
#[cfg(test)]
mod programs;
#[cfg(test)]
mod reading;
