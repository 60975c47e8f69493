//! The level of nesting over which statements and declarations are parsed.

use grammar_expressions::Level;

/// The parsers of statements and declarations, over those of one level of nesting.
#[derive(Clone, Copy)]
pub struct StatementParser<N> {
    pub level: Level<N>,
}
