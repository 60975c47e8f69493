//! The syntax tree of modules.
#![tactic(auto)]

mod first_places;
mod held_expressions;
mod held_modules;
mod held_statements;
mod held_types;
pub mod syntax;

pub use first_places::first_place;
pub use syntax::Module;
