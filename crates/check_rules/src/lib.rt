//! What a text means as a typed module or an interface, or its first fault: the definition.
#![tactic(auto)]

mod fault;

pub use fault::{Cause, CheckFault};
pub use interface_records::typed_answers;
pub use mesa_base;
pub use mesa_types;
pub use mesa_types::held_trees;
pub use syntax_trees;
