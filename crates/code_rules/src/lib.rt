//! Which code stands for a typed module, with examples. No call of the program is here.
#![tactic(auto)]

mod laws;

pub use laws::{
    code_is_whole, code_lies_in_order, jumps_leave_their_arms, own_code_joins,
    own_code_keeps_words, scopes_are_told, slots_are_apart,
};
