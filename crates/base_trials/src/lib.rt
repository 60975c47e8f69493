//! Trials of what `mesa_base` offers: values, streams and folders, in memory and of the system, and steps.
#![tactic(auto)]

#[cfg(test)]
mod folders;
#[cfg(test)]
mod stepping;
#[cfg(test)]
mod streams;
#[cfg(test)]
mod values;
