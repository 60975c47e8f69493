//! Raises, the arms that they run, and jumps out of arms, over the activations in one region of words.
#![tactic(auto)]

mod arms;
mod arriving;
mod asking;
mod entering;
mod jumping;
mod laws;
mod leaving;
mod lookups;
mod raising;
mod rejecting;
mod resuming;
mod seeking;

pub use jumping::leave;
pub use laws::{faults_raise, frames_keep_arms, predeclared_raise};
pub use lookups::plan_of;
pub use raising::{raise, raise_host, raise_linked, raise_own};
pub use rejecting::reject;
pub use resuming::resume;
