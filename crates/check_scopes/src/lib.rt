//! What is visible: names with their meanings, scopes in one another, and marks of what is used.
#![tactic(auto)]

mod index;
mod layers;
mod marks;
mod names;
mod scopes;

pub use index::Index;
pub use layers::shared_all;
pub use marks::Marks;
pub use mesa_base;
pub use names::Names;
pub use scopes::Scopes;
