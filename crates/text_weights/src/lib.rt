//! Laws of the weights of texts: names and string literals stand in the bytes of a text, among its tokens and in its tree. No call of the program is here.
#![tactic(auto)]

mod laws;

pub use laws::{
    tokens_are_in_their_text, trees_are_of_their_tokens, trees_are_sized_by_their_text,
};
