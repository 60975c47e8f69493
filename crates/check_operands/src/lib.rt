//! The steps of checking expressions, once their parts are checked: runs of operators, what brackets do, lists of values and what
//! they are for, raises, and where expressions begin.
#![tactic(auto)]

mod arguments;
mod first_tokens;
mod steps;

pub use arguments::{
    Applied, Arguments, Raises, Wanted, aim_for, applied_to, bare_raise, called, counted,
    has_parts, in_order, keyed_fields, made, nothing_given, ordered, raised, unnamed,
    what_is_raised, words_given,
};
pub use check_selectors;
pub use check_selectors::check_values;
pub use first_tokens::{first, first_of_interval};
pub use steps::{
    At, Level, all_of, begun, behind, ended, level_of, longer_by, only, some_of, truth_literal,
};
