//! Statements, expressions and types that stand inside one another.
ghost use Rattle.std.specs.Prelude.{◌≡◌, ℕ};
ghost use Rattle.grammar_expressions.specs.Nests.{Nests};
ghost use Rattle.token_cursor.specs.Running.{Reads};
ghost use Rattle.grammar_rules.specs.ReadStatements.{nested};

use grammar_rules::Begun;
use mesa_base::Identifier;
use std::alloc::Global;
use syntax_trees::syntax::{Expr, Statement, TypeExp};
use token_cursor::{Cursor, Stopped};

/// The parsers of what stands one level deeper.
pub trait NestedParsers {
    /// They may be called where so much may still nest, and read what nests there.
    ghost parse_at: { Self → ℕ → Type 0 };

    /// A statement; its first name may have been taken.
    fn stmt(
        &self,
        alloc: Global,
        tokens: &mut Cursor<'_>,
        depth: usize,
        name: Option<Identifier>,
    ) -> Result<Statement, Stopped>
        requires { parse_at self.now depth }
        ensures { Reads ((nested depth).stmt name tokens.old.rest.now) result tokens.new.rest.now };

    /// An expression; what decided that it is one may have been taken.
    fn expr(
        &self,
        alloc: Global,
        tokens: &mut Cursor<'_>,
        depth: usize,
        begun: Begun,
    ) -> Result<Expr, Stopped>
        requires { parse_at self.now depth }
        ensures { Reads ((nested depth).expr begun tokens.old.rest.now) result tokens.new.rest.now };

    /// A type; its first name may have been taken.
    fn type_exp(
        &self,
        alloc: Global,
        tokens: &mut Cursor<'_>,
        depth: usize,
        name: Option<Identifier>,
    ) -> Result<TypeExp, Stopped>
        requires { parse_at self.now depth }
        ensures { Reads ((nested depth).type name tokens.old.rest.now) result tokens.new.rest.now };
}

/// Functions as the nested parsers.
#[derive(Clone, Copy)]
pub struct ParserFunctions<F, G, H> {
    pub stmt: F,
    pub expr: G,
    pub type_exp: H,
}

impl<
    F: Fn(Global, &mut Cursor<'_>, usize, Option<Identifier>) -> Result<Statement, Stopped>,
    G: Fn(Global, &mut Cursor<'_>, usize, Begun) -> Result<Expr, Stopped>,
    H: Fn(Global, &mut Cursor<'_>, usize, Option<Identifier>) -> Result<TypeExp, Stopped>,
> NestedParsers for ParserFunctions<F, G, H> {
    ghost parse_at = { λ p depth. Nests depth (F.pre p.stmt) (F.post p.stmt) (G.pre p.expr) (G.post p.expr) (H.pre p.type_exp) (H.post p.type_exp) };

    fn stmt(
        &self,
        alloc: Global,
        tokens: &mut Cursor<'_>,
        depth: usize,
        name: Option<Identifier>,
    ) -> Result<Statement, Stopped> {
        (self.stmt)(alloc, tokens, depth, name)
    }

    fn expr(
        &self,
        alloc: Global,
        tokens: &mut Cursor<'_>,
        depth: usize,
        begun: Begun,
    ) -> Result<Expr, Stopped> {
        (self.expr)(alloc, tokens, depth, begun)
    }

    fn type_exp(
        &self,
        alloc: Global,
        tokens: &mut Cursor<'_>,
        depth: usize,
        name: Option<Identifier>,
    ) -> Result<TypeExp, Stopped> {
        (self.type_exp)(alloc, tokens, depth, name)
    }
}

/// The parsers of one level of nesting, over those of what stands in it.
#[derive(Clone, Copy)]
pub struct Level<N> {
    pub alloc: Global,
    /// How many statements, expressions and types may still stand inside one another.
    pub depth: usize,
    pub nested: N,
}

impl<N: NestedParsers> Level<N> {
    /// May something nest?
    #[tactic(auto, unfolding(grammar_rules::specs::ReadStatements::nested))]
    pub fn can(&self) -> bool
        ensures { result ≡ (nested self.now.depth).can }
    {
        self.depth > 0
    }

    /// A statement; its first name may have been taken.
    pub fn stmt(
        &self,
        tokens: &mut Cursor<'_>,
        name: Option<Identifier>,
    ) -> Result<Statement, Stopped>
        requires { N.parse_at self.now.nested self.now.depth }
        ensures { Reads ((nested self.now.depth).stmt name tokens.old.rest.now) result tokens.new.rest.now }
    {
        self.nested.stmt(self.alloc, tokens, self.depth, name)
    }

    /// An expression; what decided that it is one may have been taken.
    pub fn expr(&self, tokens: &mut Cursor<'_>, begun: Begun) -> Result<Expr, Stopped>
        requires { N.parse_at self.now.nested self.now.depth }
        ensures { Reads ((nested self.now.depth).expr begun tokens.old.rest.now) result tokens.new.rest.now }
    {
        self.nested.expr(self.alloc, tokens, self.depth, begun)
    }

    /// A type; its first name may have been taken.
    pub fn type_exp(
        &self,
        tokens: &mut Cursor<'_>,
        name: Option<Identifier>,
    ) -> Result<TypeExp, Stopped>
        requires { N.parse_at self.now.nested self.now.depth }
        ensures { Reads ((nested self.now.depth).type name tokens.old.rest.now) result tokens.new.rest.now }
    {
        self.nested.type_exp(self.alloc, tokens, self.depth, name)
    }
}
