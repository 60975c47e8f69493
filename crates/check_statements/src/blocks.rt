//! Blocks.
ghost use Rattle.std.specs.Prelude.{◌≡◌};
ghost use Rattle.mesa_types.specs.Plain as tree;
ghost use Rattle.syntax_trees.specs.PlainSyntax as plain;
ghost use Rattle.check_rules.specs.Checking as spec;
ghost use Rattle.check_rules.specs.Phrases as phrases;
ghost use Rattle.check_rules.specs.Scopes.{nothing};
ghost use Rattle.check_rules.specs.Steps.{in_scope};
ghost use Rattle.check_state.specs.Gives.{Gives};
ghost use Rattle.check_state.specs.Views as view;
ghost use Rattle.check_statements.specs.Rules as rules;
ghost use Rattle.check_statements.specs.Views as views;

use crate::checker::StatementChecker;
use crate::making::block_of;
use crate::numbered::{marked_if, within};
use check_rules::CheckFault;
use check_scopes::Names;
use check_state::{Around, Meaning, State};
use check_statement_lists::Nested;
use check_statement_lists::check_jumps::{labels_of_exits, with_labels};
use held_trees::{LetGo, both, boxed};
use mesa_types::{Phrase, Stmts, TypedStmt};
use std::alloc::Global;
use syntax_trees::syntax::Block;

/// What a block holds under its names.
pub struct Held {
    pub phrase: Phrase,
    pub statements: Stmts,
}

impl LetGo for Held {
    fn let_go(self) {
        let Held { phrase, statements } = self;
        phrase.let_go();
        statements.let_go();
    }
}

#[tactic(auto, unfolding(check_state::specs::Views::names))]
fn no_names(alloc: Global) -> Names<Meaning>
    ensures { view.names result ≡ nothing }
{
    Names::new(alloc)
}

/// Whether the block has an ENABLE.
#[tactic(auto, using(syntax_trees::proofs::PlainForms::parts_of_block))]
fn has_enable(one: &Block) -> bool
    ensures { result ≡ phrases.is_catch (rules.enable_of (plain.block one.now)) }
{
    match &one.enable {
        None => false,
        Some(_) => true,
    }
}

impl<N: Nested> StatementChecker<N> {
    /// A block's declarations, ENABLE and statements.
    #[tactic(auto, using(syntax_trees::proofs::PlainForms::parts_of_block), unfolding(crate::specs::Rules::block_inside))]
    fn block_inside(
        &self,
        one: &Block,
        around: &Around<'_>,
        state: &mut State,
    ) -> Result<Held, CheckFault>
        requires { N.ask self.now.expressions.phrases.nested }
        ensures { Gives views.held (rules.block_inside (view.around around.now) (plain.block one.now) (view.state state.old)) result (view.state state.new) }
    {
        let locals = one.locals.as_slice();
        let heads = self.heads(locals, around, state)?;
        let (heads, phrase) = both(heads, self.phrase(&one.enable, around, state))?;
        let (phrase, before) = both(phrase, self.initials(locals, around, state, heads))?;
        let all = one.statements.as_slice();
        let nested = &self.expressions.phrases;
        let statements = nested.statements_behind(all, around, state, before);
        let (phrase, statements) = both(phrase, statements)?;
        Ok(Held { phrase, statements })
    }

    /// The same in a scope of its own, which is closed in any case.
    fn block_opened(
        &self,
        one: &Block,
        around: &Around<'_>,
        state: &mut State,
    ) -> Result<Held, CheckFault>
        requires { N.ask self.now.expressions.phrases.nested }
        ensures { Gives views.held (in_scope nothing (rules.block_inside (view.around around.now) (plain.block one.now)) (view.state state.old)) result (view.state state.new) }
    {
        let coming = state.enter(self.alloc(), no_names(self.alloc()))?;
        match self.block_inside(one, around, state) {
            Ok(held) => {
                state.leave(coming);
                Ok(held)
            }
            Err(why) => {
                state.leave(coming);
                Err(why)
            }
        }
    }

    /// The same with the block's labels.
    fn block_scope(
        &self,
        one: &Block,
        around: &Around<'_>,
        state: &mut State,
    ) -> Result<Held, CheckFault>
        requires { N.ask self.now.expressions.phrases.nested }
        ensures { Gives views.held (rules.block_scope (view.around around.now) (plain.block one.now) (view.state state.old)) result (view.state state.new) }
    {
        let inside = around.inside();
        let labelled = labels_of_exits(one.exits.as_slice(), self.alloc(), &inside)?;
        let inner = with_labels(&labelled, &inside);
        self.block_opened(one, &inner, state)
    }

    /// A block with its EXITS.
    #[tactic(auto, using(syntax_trees::proofs::PlainForms::parts_of_block), unfolding(crate::specs::Rules::block_numbered))]
    fn block_numbered(
        &self,
        one: &Block,
        around: &Around<'_>,
        state: &mut State,
    ) -> Result<TypedStmt, CheckFault>
        requires { N.ask self.now.expressions.phrases.nested }
        ensures { Gives tree.stmt (rules.block_numbered (view.around around.now) (plain.block one.now) (view.state state.old)) result (view.state state.new) }
    {
        let held = self.block_scope(one, around, state)?;
        let nested = &self.expressions.phrases;
        let exits = nested.exits(one.exits.as_slice(), around, state);
        let (held, exits) = both(held, exits)?;
        let Held { phrase, statements } = held;
        let held = both((statements, exits), boxed(self.alloc(), phrase))?;
        let ((statements, exits), phrase) = held;
        Ok(block_of(phrase, statements, exits))
    }

    /// A block, with a number where it has an ENABLE.
    #[tactic(auto, using(crate::proofs::Clauses::block_is))]
    pub fn block(
        &self,
        one: &Block,
        around: &Around<'_>,
        state: &mut State,
    ) -> Result<TypedStmt, CheckFault>
        requires { N.ask self.now.expressions.phrases.nested }
        ensures { Gives tree.stmt (spec.block (view.around around.now) (plain.block one.now) (view.state state.old)) result (view.state state.new) }
    {
        let is_numbered = has_enable(one);
        let inner = within(is_numbered, around)?;
        let made = self.block_numbered(one, &inner, state)?;
        Ok(marked_if(made, self.alloc(), is_numbered, around)?)
    }
}
