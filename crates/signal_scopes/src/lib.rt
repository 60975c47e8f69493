//! The catch phrases of a body, with the jumps that leave their arms.
#![tactic(auto)]

mod find_scopes;
mod scope_types;

pub use find_scopes::scopes;
pub use scope_types::{ArmScope, ArmScopes, JumpScope, JumpScopes, PhraseScope, Point, Scopes};
