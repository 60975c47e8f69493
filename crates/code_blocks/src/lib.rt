//! The blocks of a body, between its typed tree and its code, and what is written of them. No call of the program is here.
#![tactic(auto)]

mod laws;

pub use laws::{
    jumps_are_right, jumps_inside_are_right, modules_are_coded, modules_are_in_order,
    modules_are_short, modules_are_translated, operands_are_in_range, phrases_nest, phrases_stand,
    ranges_are_kept, regions_are_told, regions_fill_the_code, stacks_stand,
};
