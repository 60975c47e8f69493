//! Parsers on tokens, of which those of modules are made: a cursor that tells which token comes next,
//! and takes names, words and marks that may or must come.
#![tactic(auto)]

mod cursor;
mod fault;
pub mod naming;

pub use cursor::{Cursor, is_mark, is_word};
pub use fault::Stopped;
