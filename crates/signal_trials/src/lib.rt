//! Trials of `scopes`.
#![tactic(auto)]

#[cfg(test)]
mod catching;
#[cfg(test)]
mod finding;
