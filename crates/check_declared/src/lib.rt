//! Rules of declarations and statements that look at no part of the text again: variables, constants, tests of a SELECT, counted
//! loops, extractors, and names that must differ.
#![tactic(auto)]

mod constants;
mod counting;
mod differing;
mod selecting;
mod sources;
mod variables;

pub use check_jumps;
pub use constants::constant_meaning;
pub use counting::{Counter, Rounds, counter_of, given, rounds_of};
pub use differing::{different, new_labels, numbers_from};
pub use selecting::{held_words, tested, tested_inside};
pub use sources::{Source, source_of};
pub use variables::{declare_variables, few_globals, few_operands, first_name};
