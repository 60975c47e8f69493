//! Expressions.
ghost use Rattle.std.specs.Prelude.{cond};
ghost use Rattle.token_cursor.specs.Parsing.{and_then, pure, refuse};
ghost use Rattle.grammar_rules.specs.ReadExpressions as spec;
ghost use Rattle.token_cursor.specs.Running.{Reads};
ghost use Rattle.grammar_rules.specs.ReadStatements.{nested};
ghost use Rattle.grammar_expressions.specs.Tails as tails;
ghost use Rattle.syntax_trees.specs.declared.syntax.Expr.TheVariants as e;

use crate::nesting::{Level, NestedParsers};
use crate::operators::{Ands, Ors, Products, Sums};
use grammar_rules::Begun;
use grammar_tokens::words_and_marks::{takes_negating, takes_relating, takes_signing};
use held_trees::{LetGo, both, boxed, boxed_pair};
use mesa_base::{Identifier, Place, Relation};
use mesa_lexer::{Mark, Word};
use syntax_trees::syntax::{Expr, Left, Sign};
use token_cursor::{Cursor, Stopped};

impl<N: NestedParsers> Level<N> {
    /// A name that was taken, with what follows it.
    #[tactic(auto, unfolding(grammar_rules::specs::ReadExpressions::reference))]
    fn reference(&self, tokens: &mut Cursor<'_>, name: Identifier) -> Result<Expr, Stopped>
        requires { N.parse_at self.now.nested self.now.depth }
        ensures { Reads (spec.reference (nested self.now.depth) name tokens.old.rest.now) result tokens.new.rest.now }
    {
        let (name, suffixes) = both(name, self.suffixes(tokens))?;
        Ok(Expr::Reference(Left { name, suffixes }))
    }

    /// An expression in parentheses, behind the first.
    #[tactic(auto, unfolding(grammar_rules::specs::ReadExpressions::parens))]
    fn parens(&self, tokens: &mut Cursor<'_>, place: Place) -> Result<Expr, Stopped>
        requires { N.parse_at self.now.nested self.now.depth }
        ensures { Reads (spec.parens (nested self.now.depth) place tokens.old.rest.now) result tokens.new.rest.now }
    {
        let inner = self.expr(tokens, Begun::Fresh)?;
        let (inner, _) = both(inner, tokens.need_mark(Mark::RightParenthesis))?;
        Ok(Expr::Parenthesis(place, boxed(self.alloc, inner)?))
    }

    fn raised(&self, tokens: &mut Cursor<'_>) -> Result<Expr, Stopped>
        requires { N.parse_at self.now.nested self.now.depth }
        ensures { Reads (and_then (spec.raise (nested self.now.depth) tokens.old.rest.now) (λ x. pure (e.Raised x))) result tokens.new.rest.now }
    {
        let raise = self.raise(tokens)?;
        Ok(Expr::Raised(boxed(self.alloc, raise)?))
    }

    /// What begins with no literal.
    #[tactic(auto, using(token_cursor::proofs::Choosing::choose_none, token_cursor::proofs::Choosing::choose_some), unfolding(crate::specs::Tails::unit))]
    fn unit(&self, tokens: &mut Cursor<'_>) -> Result<Expr, Stopped>
        requires { N.parse_at self.now.nested self.now.depth }
        ensures { Reads (tails.unit (nested self.now.depth) tokens.old.rest.now) result tokens.new.rest.now }
    {
        if let Some(name) = tokens.takes_name(self.alloc)? {
            return self.reference(tokens, name);
        }
        if let Some(place) = tokens.takes_mark(Mark::LeftParenthesis) {
            return self.parens(tokens, place);
        }
        match tokens.takes_mark(Mark::LeftBracket) {
            Some(place) => Ok(Expr::Constructor(self.list(tokens, place)?)),
            None => self.raised(tokens),
        }
    }

    /// What begins with no number, character or text.
    #[tactic(auto, using(token_cursor::proofs::Choosing::choose_none, token_cursor::proofs::Choosing::choose_some), unfolding(crate::specs::Tails::truth))]
    fn truth(&self, tokens: &mut Cursor<'_>) -> Result<Expr, Stopped>
        requires { N.parse_at self.now.nested self.now.depth }
        ensures { Reads (tails.truth (nested self.now.depth) tokens.old.rest.now) result tokens.new.rest.now }
    {
        if let Some(place) = tokens.takes_word(Word::TrueWord) {
            return Ok(Expr::Truth(place, true));
        }
        match tokens.takes_word(Word::FalseWord) {
            Some(place) => Ok(Expr::Truth(place, false)),
            None => self.unit(tokens),
        }
    }

    /// A primary, of which nothing was taken.
    #[tactic(auto, using(token_cursor::proofs::Choosing::choose_none, token_cursor::proofs::Choosing::choose_some), unfolding(grammar_rules::specs::ReadExpressions::primary, grammar_rules::specs::ReadExpressions::literal, crate::specs::Tails::truth, crate::specs::Tails::unit))]
    fn fresh_primary(&self, tokens: &mut Cursor<'_>) -> Result<Expr, Stopped>
        requires { N.parse_at self.now.nested self.now.depth }
        ensures { Reads (spec.primary (nested self.now.depth) None tokens.old.rest.now) result tokens.new.rest.now }
    {
        if let Some((number, place)) = tokens.takes_number() {
            return Ok(Expr::NumberLiteral(place, number));
        }
        if let Some((code, place)) = tokens.takes_char() {
            return Ok(Expr::CharacterLiteral(place, code));
        }
        match tokens.takes_text(self.alloc)? {
            Some(text) => Ok(Expr::StringLiteral(text.place, text.item)),
            None => self.truth(tokens),
        }
    }

    #[tactic(auto, unfolding(grammar_rules::specs::ReadExpressions::primary))]
    fn primary(&self, tokens: &mut Cursor<'_>, name: Option<Identifier>) -> Result<Expr, Stopped>
        requires { N.parse_at self.now.nested self.now.depth }
        ensures { Reads (spec.primary (nested self.now.depth) name tokens.old.rest.now) result tokens.new.rest.now }
    {
        match name {
            Some(name) => self.reference(tokens, name),
            None => self.fresh_primary(tokens),
        }
    }

    #[tactic(auto, unfolding(crate::specs::Tails::signed))]
    fn signed(&self, tokens: &mut Cursor<'_>, sign: Sign, place: Place) -> Result<Expr, Stopped>
        requires { N.parse_at self.now.nested self.now.depth }
        ensures { Reads (tails.signed (nested self.now.depth) sign place tokens.old.rest.now) result tokens.new.rest.now }
    {
        let operand = self.fresh_primary(tokens)?;
        Ok(Expr::Signed(sign, place, boxed(self.alloc, operand)?))
    }

    /// A factor, of which nothing was taken.
    #[tactic(auto, using(token_cursor::proofs::Choosing::choose_none, token_cursor::proofs::Choosing::choose_some), unfolding(grammar_rules::specs::ReadExpressions::factor, crate::specs::Tails::signed))]
    pub(crate) fn fresh_factor(&self, tokens: &mut Cursor<'_>) -> Result<Expr, Stopped>
        requires { N.parse_at self.now.nested self.now.depth }
        ensures { Reads (spec.factor (nested self.now.depth) None tokens.old.rest.now) result tokens.new.rest.now }
    {
        match takes_signing(tokens) {
            Some((sign, place)) => self.signed(tokens, sign, place),
            None => self.fresh_primary(tokens),
        }
    }

    #[tactic(auto, unfolding(grammar_rules::specs::ReadExpressions::factor))]
    fn factor(&self, tokens: &mut Cursor<'_>, name: Option<Identifier>) -> Result<Expr, Stopped>
        requires { N.parse_at self.now.nested self.now.depth }
        ensures { Reads (spec.factor (nested self.now.depth) name tokens.old.rest.now) result tokens.new.rest.now }
    {
        match name {
            Some(name) => self.primary(tokens, Some(name)),
            None => self.fresh_factor(tokens),
        }
    }

    #[tactic(auto, unfolding(grammar_rules::specs::ReadExpressions::product))]
    pub(crate) fn product(
        &self,
        tokens: &mut Cursor<'_>,
        name: Option<Identifier>,
    ) -> Result<Expr, Stopped>
        requires { N.parse_at self.now.nested self.now.depth }
        ensures { Reads (spec.product (nested self.now.depth) name tokens.old.rest.now) result tokens.new.rest.now }
    {
        let first = self.factor(tokens, name)?;
        self.run_behind::<Products>(tokens, first)
    }

    /// A sum, which the sides of a relation are; its first name may have been taken.
    #[tactic(auto, unfolding(grammar_rules::specs::ReadExpressions::sum))]
    pub fn sum(&self, tokens: &mut Cursor<'_>, name: Option<Identifier>) -> Result<Expr, Stopped>
        requires { N.parse_at self.now.nested self.now.depth }
        ensures { Reads (spec.sum (nested self.now.depth) name tokens.old.rest.now) result tokens.new.rest.now }
    {
        let first = self.product(tokens, name)?;
        self.run_behind::<Sums>(tokens, first)
    }

    #[tactic(auto, unfolding(crate::specs::Tails::compared))]
    fn compared(
        &self,
        tokens: &mut Cursor<'_>,
        left: Expr,
        is_negated: bool,
        relation: Relation,
        place: Place,
    ) -> Result<Expr, Stopped>
        requires { N.parse_at self.now.nested self.now.depth }
        ensures { Reads (tails.compared (nested self.now.depth) left is_negated relation place tokens.old.rest.now) result tokens.new.rest.now }
    {
        let (left, right) = both(left, self.sum(tokens, None))?;
        let (left, right) = boxed_pair(self.alloc, left, right)?;
        Ok(Expr::Compare {
            left,
            is_negated,
            relation,
            place,
            right,
        })
    }

    #[tactic(auto, unfolding(crate::specs::Tails::within))]
    fn within(
        &self,
        tokens: &mut Cursor<'_>,
        left: Expr,
        is_negated: bool,
        place: Place,
    ) -> Result<Expr, Stopped>
        requires { N.parse_at self.now.nested self.now.depth }
        ensures { Reads (tails.within (nested self.now.depth) left is_negated place tokens.old.rest.now) result tokens.new.rest.now }
    {
        let (left, interval) = both(left, self.interval(tokens))?;
        let (interval, value) = both(interval, boxed(self.alloc, left))?;
        Ok(Expr::Within {
            value,
            is_negated,
            place,
            interval,
        })
    }

    /// A comparison or IN, which must come behind NOT.
    #[tactic(auto, using(token_cursor::proofs::Choosing::choose_none, token_cursor::proofs::Choosing::choose_some, token_cursor::proofs::Choosing::if_true, token_cursor::proofs::Choosing::if_false), unfolding(grammar_rules::specs::ReadExpressions::relation, crate::specs::Tails::compared, crate::specs::Tails::within))]
    fn relation(
        &self,
        tokens: &mut Cursor<'_>,
        left: Expr,
        is_negated: bool,
    ) -> Result<Expr, Stopped>
        requires { N.parse_at self.now.nested self.now.depth }
        ensures { Reads (spec.relation (nested self.now.depth) left is_negated (cond is_negated refuse (pure left)) tokens.old.rest.now) result tokens.new.rest.now }
    {
        if let Some((relation, place)) = takes_relating(tokens) {
            return self.compared(tokens, left, is_negated, relation, place);
        }
        if let Some(place) = tokens.takes_word(Word::InWord) {
            return self.within(tokens, left, is_negated, place);
        }
        if is_negated {
            left.let_go();
            return Err(Stopped::Unexpected);
        }
        Ok(left)
    }

    #[tactic(auto, using(token_cursor::proofs::Choosing::choose_none, token_cursor::proofs::Choosing::choose_some), unfolding(grammar_rules::specs::ReadExpressions::related))]
    fn related(&self, tokens: &mut Cursor<'_>, left: Expr) -> Result<Expr, Stopped>
        requires { N.parse_at self.now.nested self.now.depth }
        ensures { Reads (spec.related (nested self.now.depth) left tokens.old.rest.now) result tokens.new.rest.now }
    {
        match takes_negating(tokens) {
            Some(_) => self.relation(tokens, left, true),
            None => self.relation(tokens, left, false),
        }
    }

    #[tactic(auto, unfolding(grammar_rules::specs::ReadExpressions::rel))]
    fn rel(&self, tokens: &mut Cursor<'_>, name: Option<Identifier>) -> Result<Expr, Stopped>
        requires { N.parse_at self.now.nested self.now.depth }
        ensures { Reads (spec.rel (nested self.now.depth) name tokens.old.rest.now) result tokens.new.rest.now }
    {
        let left = self.sum(tokens, name)?;
        self.related(tokens, left)
    }

    #[tactic(auto, unfolding(grammar_rules::specs::ReadExpressions::negation))]
    fn negation(&self, tokens: &mut Cursor<'_>, place: Place) -> Result<Expr, Stopped>
        requires { N.parse_at self.now.nested self.now.depth }
        ensures { Reads (spec.negation (nested self.now.depth) place tokens.old.rest.now) result tokens.new.rest.now }
    {
        let operand = self.rel(tokens, None)?;
        Ok(Expr::Not(place, boxed(self.alloc, operand)?))
    }

    /// NOT with a comparison, or one alone, of which nothing was taken.
    #[tactic(auto, using(token_cursor::proofs::Choosing::choose_none, token_cursor::proofs::Choosing::choose_some), unfolding(grammar_rules::specs::ReadExpressions::neg))]
    pub(crate) fn fresh_neg(&self, tokens: &mut Cursor<'_>) -> Result<Expr, Stopped>
        requires { N.parse_at self.now.nested self.now.depth }
        ensures { Reads (spec.neg (nested self.now.depth) Begun.Fresh tokens.old.rest.now) result tokens.new.rest.now }
    {
        match takes_negating(tokens) {
            Some(place) => self.negation(tokens, place),
            None => self.rel(tokens, None),
        }
    }

    #[tactic(auto, unfolding(grammar_rules::specs::ReadExpressions::neg))]
    fn neg(&self, tokens: &mut Cursor<'_>, begun: Begun) -> Result<Expr, Stopped>
        requires { N.parse_at self.now.nested self.now.depth }
        ensures { Reads (spec.neg (nested self.now.depth) begun tokens.old.rest.now) result tokens.new.rest.now }
    {
        match begun {
            Begun::Fresh => self.fresh_neg(tokens),
            Begun::AtName(name) => self.rel(tokens, Some(name)),
            Begun::AtNot(place) => self.negation(tokens, place),
        }
    }

    #[tactic(auto, unfolding(grammar_rules::specs::ReadExpressions::conj))]
    pub(crate) fn conj(&self, tokens: &mut Cursor<'_>, begun: Begun) -> Result<Expr, Stopped>
        requires { N.parse_at self.now.nested self.now.depth }
        ensures { Reads (spec.conj (nested self.now.depth) begun tokens.old.rest.now) result tokens.new.rest.now }
    {
        let first = self.neg(tokens, begun)?;
        self.run_behind::<Ands>(tokens, first)
    }

    /// An expression of this level.
    #[tactic(auto, unfolding(grammar_rules::specs::ReadExpressions::expr))]
    pub fn disj(&self, tokens: &mut Cursor<'_>, begun: Begun) -> Result<Expr, Stopped>
        requires { N.parse_at self.now.nested self.now.depth }
        ensures { Reads (spec.expr (nested self.now.depth) begun tokens.old.rest.now) result tokens.new.rest.now }
    {
        let first = self.conj(tokens, begun)?;
        self.run_behind::<Ors>(tokens, first)
    }
}
