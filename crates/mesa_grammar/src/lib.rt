//! The grammar of modules: what the tokens of a text come to is a tree, or a fault at its place. docs/LANGUAGE.md states
//! it.
#![tactic(auto)]

mod declarations;
mod directory;
mod heads;
mod interfaces;
mod modules;
mod nesting;
mod parser;

pub use parser::module;
