//! Configurations that stand inside one another.

ghost use Rattle.std.specs.Prelude.{◌≡◌, ℕ};
ghost use Rattle.token_cursor.specs.Running.{Reads};
ghost use Rattle.cmesa_grammar.specs.Nests.{Nests};
ghost use Rattle.cmesa_grammar.specs.ReadConfigs.{nested};

use crate::syntax::Configuration;
use mesa_base::Identifier;
use std::alloc::Global;
use token_cursor::{Cursor, Stopped};

/// The parser of what stands one level deeper.
pub trait NestedParser {
    /// It may be called where so much may still nest, and reads what nests there.
    ghost parse_at: { Self → ℕ → Type 0 };

    /// A configuration of this name, from its word on.
    fn configuration(
        &self,
        alloc: Global,
        tokens: &mut Cursor<'_>,
        depth: usize,
        name: Identifier,
    ) -> Result<Configuration, Stopped>
        requires { parse_at self.now depth }
        ensures { Reads (nested depth name tokens.old.rest.now) result tokens.new.rest.now };
}

/// A function as the nested parser.
#[derive(Clone, Copy)]
pub struct ParserFunction<F> {
    pub configuration: F,
}

impl<
    F: Fn(Global, &mut Cursor<'_>, usize, Identifier) -> Result<Configuration, Stopped>,
> NestedParser for ParserFunction<F> {
    ghost parse_at = { λ p depth. Nests depth (F.pre p.configuration) (F.post p.configuration) };

    fn configuration(
        &self,
        alloc: Global,
        tokens: &mut Cursor<'_>,
        depth: usize,
        name: Identifier,
    ) -> Result<Configuration, Stopped> {
        (self.configuration)(alloc, tokens, depth, name)
    }
}

/// The parsers of what stands in a configuration, over that of the configurations among it.
#[derive(Clone, Copy)]
pub struct Level<N> {
    pub alloc: Global,
    /// How many configurations may still stand inside one another.
    pub depth: usize,
    pub nested: N,
}
