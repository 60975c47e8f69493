//! The grammar of modules as relations: one for each row and each optional or repeated part, with a constructor for each
//! alternative. The parser functions (`specs/Read..`) are proved to find its one answer. docs/LANGUAGE.md states it.
#![tactic(auto)]

mod begun;
mod laws;

pub use begun::Begun;
pub use laws::{exactly_one_answer, two_nodes_a_token};
