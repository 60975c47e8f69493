//! Trials of `validate` and `ModuleCode::new` over codes of modules that are written short.
#![tactic(auto)]

#[cfg(test)]
mod building;
#[cfg(test)]
mod ranges;
#[cfg(test)]
mod validating;
