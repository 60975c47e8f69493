//! Trials of names, scopes and marks.
#![tactic(auto)]

#[cfg(test)]
mod marking;
#[cfg(test)]
mod naming;
#[cfg(test)]
mod scoping;
#[cfg(test)]
mod sharing;
