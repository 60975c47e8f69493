//! The tree of blocks of a typed body: the walk over its statements and expressions.
#![tactic(auto)]

mod cases;
mod expressions;
mod loops;
mod phrases;
mod rooms;
mod statements;
mod targets;
mod turns;

pub use code_trees;
pub use statements::block as body_block;
