//! The declarations of a block: their heads before all else in it, and then what they do when they are reached.
ghost use Rattle.std.specs.Prelude.{◌≡◌, [], ◌∷◌, ◌++◌, MatchOption, Option, IfOk};
ghost use Rattle.syntax_trees.specs.PlainSyntax as plain;
ghost use Rattle.check_rules.specs.Checking as spec;
ghost use Rattle.check_rules.specs.Parts.{join_stmts};
ghost use Rattle.check_locals.specs.Views as local;
ghost use Rattle.check_statement_lists.specs.Views as nested;
ghost use Rattle.check_state.specs.Gives.{Gives};
ghost use Rattle.check_state.specs.Views as view;
ghost use Rattle.check_statements.specs.Turns as turns;
ghost use Rattle.check_statements.specs.Views as views;

use crate::checker::StatementChecker;
use check_locals::{Headed, head, initial};
use check_rules::CheckFault;
use check_state::{Around, State};
use check_statement_lists::Nested;
use held_trees::{LetGo, both, pushed};
use mesa_base::{List, OutOfMemory};
use mesa_types::{Stmts, TypedStmt};
use std::alloc::{AllocFailed, Global};
use std::collections::VecDeque;
use syntax_trees::syntax::Local;

/// The heads of declarations, which are taken out one by one.
pub struct Heads {
    pub items: VecDeque<Headed>,
}

impl LetGo for Heads {
    fn let_go(self) {
        let Heads { mut items } = self;
        while let Some(one) = items.pop_front() {
            one.let_go();
        }
        items.destroy_empty();
    }
}

#[tactic(auto, unfolding(crate::specs::Views::heads))]
fn no_heads(alloc: Global) -> Heads
    ensures { views.heads result ≡ [] }
{
    Heads {
        items: VecDeque::new(alloc),
    }
}

/// With one head more, at the end.
#[tactic(auto, using(crate::proofs::ListLaws::heads_more))]
fn with_head(mut before: Heads, one: Headed) -> Result<Heads, OutOfMemory>
    ensures { IfOk result (λ more. views.heads more ≡ views.heads before ++ local.headed one ∷ []) }
{
    match before.items.push_back(one) {
        Ok(()) => Ok(before),
        Err(failed) => {
            let AllocFailed { value } = failed;
            value.let_go();
            before.let_go();
            Err(OutOfMemory)
        }
    }
}

/// Takes out the first.
#[tactic(auto, unfolding(crate::specs::Views::heads))]
fn first_head(heads: &mut Heads) -> Option<Headed>
    ensures { MatchOption result (views.heads heads.old ≡ []) (λ one. views.heads heads.old ≡ local.headed one ∷ views.heads heads.new) }
{
    heads.items.pop_front()
}

/// The statements with this one behind, if there is one.
#[tactic(auto, using(check_statement_lists::proofs::ListLaws::stmts_onto))]
fn and_put(done: Stmts, made: Option<TypedStmt>) -> Result<Stmts, OutOfMemory>
    ensures { IfOk result (λ more. join_stmts (nested.stmts more) ≡ (λ rest. join_stmts (nested.stmts done) (local.put made rest))) }
{
    match made {
        None => Ok(done),
        Some(one) => pushed(done, one),
    }
}

impl<N: Nested> StatementChecker<N> {
    /// The heads of a block's declarations.
    pub fn heads(
        &self,
        all: &[Local],
        around: &Around<'_>,
        state: &mut State,
    ) -> Result<Heads, CheckFault>
        requires { N.ask self.now.expressions.phrases.nested }
        ensures { Gives views.heads (spec.heads (view.around around.now) (plain.locals all.now) (view.state state.old)) result (view.state state.new) }
    {
        let mut done = no_heads(self.alloc());
        for one in all {
            let names = one.labels.as_slice();
            let next = head(&self.expressions, &one.item, around, state, names);
            let (held, next) = both(done, next)?;
            done = with_head(held, next)?;
        }
        Ok(done)
    }

    /// What the declarations do when they are reached.
    pub fn initials(
        &self,
        all: &[Local],
        around: &Around<'_>,
        state: &mut State,
        heads: Heads,
    ) -> Result<Stmts, CheckFault>
        requires { N.ask self.now.expressions.phrases.nested }
        ensures { Gives nested.stmts (spec.initials (view.around around.now) (plain.locals all.now) (views.heads heads) (view.state state.old)) result (view.state state.new) }
    {
        let mut rest = heads;
        let mut done = List::new(self.alloc());
        for one in all {
            let Some(headed) = first_head(&mut rest) else {
                rest.let_go();
                return Ok(done);
            };
            let more = self.initial_behind(one, around, state, headed, done);
            let (held, more) = both(rest, more)?;
            rest = held;
            done = more;
        }
        rest.let_go();
        Ok(done)
    }

    /// What a declaration does when it is reached, behind these statements.
    #[tactic(auto, unfolding(crate::specs::Turns::initial_behind))]
    fn initial_behind(
        &self,
        one: &Local,
        around: &Around<'_>,
        state: &mut State,
        headed: Headed,
        before: Stmts,
    ) -> Result<Stmts, CheckFault>
        requires { N.ask self.now.expressions.phrases.nested }
        ensures { Gives (λ more. join_stmts (nested.stmts more)) (turns.initial_behind (view.around around.now) (nested.stmts before) one.now (local.headed headed) (view.state state.old)) result (view.state state.new) }
    {
        let names = one.labels.as_slice();
        let made = initial(&self.expressions, &one.item, around, state, names, headed);
        let (before, made) = both(before, made)?;
        Ok(and_put(before, made)?)
    }
}
