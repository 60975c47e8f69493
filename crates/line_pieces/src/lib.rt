//! Lines, written piece by piece: texts, names, numbers, stamps and paths.
#![tactic(auto)]

mod pieces;
mod sending;
mod stamps;

pub use pieces::{Piece, print_all, say_all};
