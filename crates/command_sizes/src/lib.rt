//! Where the size sum of a call is small no file of it is too large: laws alone. No call of the program is here.
#![tactic(auto)]

mod laws;

pub use laws::{
    files_are_small, objects_are_small, small_calls_are_complete, sums_are_told,
    too_large_comes_only_so,
};
