//! What a program means, and the laws of it. No call of the program is here.
#![tactic(auto)]

mod laws;

pub use laws::{
    always_ends, bounds_are_cuts, faults_are_cuts, fuel_never_shows, input_is_taken_in_order,
    nothing_is_left_standing, one_result, phrases_are_passed_as_found,
};
