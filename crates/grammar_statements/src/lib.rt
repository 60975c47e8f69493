//! The parsers of statements and blocks, over those of expressions and of one level of nesting.
#![tactic(auto)]

mod blocks;
mod exits;
mod loops;
mod nesting;
mod productions;
mod selections;
mod statements;
mod turns;

pub use blocks::BlockEnd;
pub use grammar_expressions;
pub use grammar_expressions::grammar_tokens;
pub use nesting::StatementParser;
pub use turns::Turn;
