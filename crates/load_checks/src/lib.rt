//! The first load fault of several images; or, where they have none, what is still wanted of them and what stands for each of their wanted items.
#![tactic(auto)]

mod checking;
mod choosing;
mod exporters;
mod faces;
mod faults;
mod key;
mod links;
mod offering;
mod places;
mod resolving;
mod several;
mod turn;
mod wanting;

pub use resolving::{Resolved, resolve};
pub use several::first_fault;
