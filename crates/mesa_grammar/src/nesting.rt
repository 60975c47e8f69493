//! The parsers of statements over which declarations and modules are parsed.

use grammar_statements::StatementParser;

/// The parsers of declarations and modules, over those of statements.
#[derive(Clone, Copy)]
pub struct Grammar<N> {
    pub statements: StatementParser<N>,
}
