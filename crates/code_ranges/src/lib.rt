//! That the numbers in the blocks of a sound module fit the types of the code. No call of the program is here.
#![tactic(auto)]

mod laws;

pub use laws::bodies_are_in_range;
