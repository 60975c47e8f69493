//! Several images, loaded as one.
#![tactic(auto)]

mod joining;
mod loading;
mod modules;
mod naming;
mod shifting;
mod standing;

pub use loading::load;
