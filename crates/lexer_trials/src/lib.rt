//! Trials of `tokens` over texts.
#![tactic(auto)]

#[cfg(test)]
mod faults;
#[cfg(test)]
mod forms;
#[cfg(test)]
mod reading;
