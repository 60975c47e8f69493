//! Rules of values that look at no part of the text again: operators, literals, and checks of what is given to a target.
#![tactic(auto)]

mod conversions;
mod intervals;
mod long_operators;
mod operations;
mod operators;
mod sums;
mod targets;
mod values;

pub use conversions::conversion_for;
pub use intervals::{
    Ends, bases, is_long_interval, longer_bounds, longer_number, meets_bounds, not_long, within,
};
pub use long_operators::{Fit, LongMeeting, beside, fitted, longer, selecting, selecting_itself};
pub use operations::{Relating, relates};
pub use operators::{Meeting, Sort, number_type, related, sort_of, turned};
pub use sums::{Done, Run, Sum, step};
pub use targets::{checked, finish, range_for};
pub use values::{
    compared, is_truth, letter, not_of, number, signed, string, truth, truth_operand,
};
