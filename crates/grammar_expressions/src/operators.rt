//! Runs of operators of one rank.
ghost use Rattle.std.specs.Prelude.{◌≡◌, ℕ, Option, None, IfOk};
ghost use Rattle.grammar_expressions.specs.Runs.{operations, run_behind};
ghost use Rattle.token_cursor.proofs.Loops.{Eats};
ghost use Rattle.token_cursor.specs.Parsing.{Parser, many, many_turn};
ghost use Rattle.mesa_lexer.specs.declared.token.Kind.{Kind};
ghost use Rattle.syntax_trees.specs.declared.syntax.Expr.{Expr};
ghost use Rattle.syntax_trees.specs.declared.syntax.Operator.{Operator};
ghost use Rattle.grammar_rules.proofs.Parts.{ands_eats, ors_eats, products_eats, sums_eats};
ghost use Rattle.grammar_rules.specs.ReadExpressions as spec;
ghost use Rattle.grammar_rules.specs.Grammar as g;
ghost use Rattle.grammar_rules.specs.declared.begun.Begun.TheVariants.{Fresh};
ghost use Rattle.grammar_rules.specs.WordsAndMarks.{adding, conjoining, disjoining, multiplying};
ghost use Rattle.grammar_rules.specs.ReadStatements.{nested};
ghost use Rattle.token_cursor.specs.Running.{Reads, behind, taken};

use crate::nesting::{Level, NestedParsers};
use grammar_rules::Begun;
use grammar_tokens::words_and_marks::{
    takes_adding, takes_conjoining, takes_disjoining, takes_multiplying,
};
use held_trees::{LetGo, both, boxed, pushed};
use mesa_base::{List, OutOfMemory, Place};
use std::alloc::Global;
use syntax_trees::syntax::{Expr, Operation, Operations, Operator};
use token_cursor::{Cursor, Stopped};

/// The operators of one rank, and the operands behind them.
pub(crate) trait Rank<N: NestedParsers> {
    ghost operators: { Kind → Option Operator };

    /// The operand, where so much may still nest.
    ghost operand_at: { ℕ → Parser Expr };

    /// Takes an operator of this rank where one comes next.
    fn takes_operator(tokens: &mut Cursor<'_>) -> Option<(Operator, Place)>
        ensures found { taken operators tokens.old.rest.now ≡ result }
        ensures rest { tokens.new.rest.now ≡ behind operators tokens.old.rest.now };

    /// The operand behind an operator.
    fn operand(level: &Level<N>, tokens: &mut Cursor<'_>) -> Result<Expr, Stopped>
        requires { N.parse_at level.now.nested level.now.depth }
        ensures { Reads (operand_at level.now.depth tokens.old.rest.now) result tokens.new.rest.now };

    /// Each turn takes a token.
    ghost eats: { (n : ℕ) → Eats (many_turn operators (operations (operand_at n))) };
}

pub(crate) struct Ors;

impl<N: NestedParsers> Rank<N> for Ors {
    ghost operators = { disjoining };

    ghost operand_at = { λ n. spec.conj (nested n) Fresh };

    fn takes_operator(tokens: &mut Cursor<'_>) -> Option<(Operator, Place)> {
        takes_disjoining(tokens)
    }

    fn operand(level: &Level<N>, tokens: &mut Cursor<'_>) -> Result<Expr, Stopped> {
        level.conj(tokens, Begun::Fresh)
    }

    ghost eats = { ors_eats };
}

pub(crate) struct Ands;

impl<N: NestedParsers> Rank<N> for Ands {
    ghost operators = { conjoining };

    ghost operand_at = { λ n. spec.neg (nested n) Fresh };

    fn takes_operator(tokens: &mut Cursor<'_>) -> Option<(Operator, Place)> {
        takes_conjoining(tokens)
    }

    fn operand(level: &Level<N>, tokens: &mut Cursor<'_>) -> Result<Expr, Stopped> {
        level.fresh_neg(tokens)
    }

    ghost eats = { ands_eats };
}

pub(crate) struct Sums;

impl<N: NestedParsers> Rank<N> for Sums {
    ghost operators = { adding };

    ghost operand_at = { λ n. spec.product (nested n) None };

    fn takes_operator(tokens: &mut Cursor<'_>) -> Option<(Operator, Place)> {
        takes_adding(tokens)
    }

    fn operand(level: &Level<N>, tokens: &mut Cursor<'_>) -> Result<Expr, Stopped> {
        level.product(tokens, None)
    }

    ghost eats = { sums_eats };
}

pub(crate) struct Products;

impl<N: NestedParsers> Rank<N> for Products {
    ghost operators = { multiplying };

    ghost operand_at = { λ n. spec.factor (nested n) None };

    fn takes_operator(tokens: &mut Cursor<'_>) -> Option<(Operator, Place)> {
        takes_multiplying(tokens)
    }

    fn operand(level: &Level<N>, tokens: &mut Cursor<'_>) -> Result<Expr, Stopped> {
        level.fresh_factor(tokens)
    }

    ghost eats = { products_eats };
}

/// The operand with the operations behind it; alone where there are none.
#[tactic(auto, using(grammar_rules::proofs::Runs::run_none, grammar_rules::proofs::Runs::run_some))]
fn run(alloc: Global, first: Expr, others: Operations) -> Result<Expr, OutOfMemory>
    ensures { IfOk result (λ whole. whole ≡ g.run first others) }
{
    if others.is_empty() {
        others.let_go();
        return Ok(first);
    }
    let (others, first) = both(others, boxed(alloc, first))?;
    Ok(Expr::Run(first, others))
}

impl<N: NestedParsers> Level<N> {
    /// Further operators of the rank behind these, with their operands.
    #[tactic(auto, using(token_cursor::proofs::Taking::many_by))]
    fn operations<R: Rank<N>>(
        &self,
        tokens: &mut Cursor<'_>,
        mut all: Operations,
    ) -> Result<Operations, Stopped>
        requires { N.parse_at self.now.nested self.now.depth }
        ensures { Reads (many R.operators (operations (R.operand_at self.now.depth)) all tokens.old.rest.now) result tokens.new.rest.now }
    {
        'operators: while let Some((operator, place)) = R::takes_operator(tokens) {
            let (held, right) = both(all, R::operand(self, tokens))?;
            let operation = Operation {
                operator,
                place,
                right,
            };
            all = pushed(held, operation)?;
        }
        Ok(all)
    }

    /// A run of the rank behind its first operand, which is alone where no operator follows.
    pub(crate) fn run_behind<R: Rank<N>>(
        &self,
        tokens: &mut Cursor<'_>,
        first: Expr,
    ) -> Result<Expr, Stopped>
        requires { N.parse_at self.now.nested self.now.depth }
        ensures { Reads (run_behind R.operators (R.operand_at self.now.depth) first tokens.old.rest.now) result tokens.new.rest.now }
    {
        let all = self.operations::<R>(tokens, List::new(self.alloc));
        let (first, all) = both(first, all)?;
        Ok(run(self.alloc, first, all)?)
    }
}
