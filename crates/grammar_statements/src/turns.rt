//! A turn of a loop over declarations.

use mesa_base::List;
use syntax_trees::syntax::Statements;

/// What a turn came to.
pub enum Turn<D> {
    /// One more declaration, the last of these.
    More(List<D>),
    /// No more comes: these are all, and behind them stand these statements.
    All(List<D>, Statements),
}
