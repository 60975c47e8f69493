//! The parsers of bracket lists, expressions, types and targets, over those of one level of nesting.
#![tactic(auto)]

mod expressions;
mod lists;
mod nesting;
mod operators;
mod targets;
mod types;

pub use grammar_tokens;
pub use nesting::{Level, NestedParsers, ParserFunctions};
