//! Catch phrases and their arms.
ghost use Rattle.std.specs.Prelude.{◌≡◌};
ghost use Rattle.mesa_types.specs.Plain as tree;
ghost use Rattle.syntax_trees.specs.PlainSyntax as plain;
ghost use Rattle.mesa_types.specs.Typed as t;
ghost use Rattle.check_rules.specs.Checking as spec;
ghost use Rattle.check_rules.specs.Steps.{in_scope};
ghost use Rattle.check_state.specs.Gives.{Gives};
ghost use Rattle.check_state.specs.Views as view;
ghost use Rattle.check_statement_lists.specs.Turns as turns;
ghost use Rattle.check_statement_lists.specs.Views as views;

use crate::nesting::Nested;
use check_declared::check_jumps::{ArmPlace, arm_labels, enter_arm, in_arm, labels_of};
use check_expressions::Phrases;
use check_rules::CheckFault;
use check_scopes::Names;
use check_state::{Around, Meaning, State};
use held_trees::{both, pushed};
use mesa_base::List;
use mesa_types::{Arm, Arms, Phrase, TypedStmt};
use std::alloc::Global;
use syntax_trees::syntax::{self, Statement};

/// What checks lists of statements, over what checks one of them.
#[derive(Clone, Copy)]
pub struct NestedChecker<N> {
    pub alloc: Global,
    pub nested: N,
}

fn no_phrase() -> Phrase
    ensures { tree.phrase result ≡ t.NoPhrase }
{
    Phrase::NoPhrase
}

/// The arms of the phrase of this statement.
#[tactic(auto, unfolding(crate::specs::Views::arms))]
fn caught(statement: u32, arms: Arms) -> Phrase
    ensures { tree.phrase result ≡ t.Catch statement (views.arms arms) }
{
    Phrase::Catch(statement, arms)
}

impl<N: Nested> Phrases for NestedChecker<N> {
    ghost ask = { λ p. N.ask p.nested };

    #[tactic(auto, using(crate::proofs::ListLaws::phrase_none, crate::proofs::ListLaws::phrase_some), unfolding(check_state::specs::Views::around))]
    fn phrase(
        &self,
        catch: &Option<syntax::Phrase>,
        around: &Around<'_>,
        state: &mut State,
    ) -> Result<Phrase, CheckFault> {
        match catch {
            None => Ok(no_phrase()),
            Some(found) => {
                let arms = self.arms(found.item.as_slice(), around, state)?;
                Ok(caught(around.statement, arms))
            }
        }
    }
}

impl<N: Nested> NestedChecker<N> {
    /// The arms of a phrase.
    fn arms(
        &self,
        all: &[syntax::Arm],
        around: &Around<'_>,
        state: &mut State,
    ) -> Result<Arms, CheckFault>
        requires { N.ask self.now.nested }
        ensures { Gives views.arms (spec.arms (view.around around.now) (plain.arms all.now) (view.state state.old)) result (view.state state.new) }
    {
        let mut done = List::new(self.alloc);
        for one in all {
            let (held, arm) = both(done, self.arm(one, around, state))?;
            done = pushed(held, arm)?;
        }
        Ok(done)
    }

    /// An arm, with the parameters of its signals as variables.
    #[tactic(auto, unfolding(crate::specs::Turns::one_arm))]
    fn arm(
        &self,
        one: &syntax::Arm,
        around: &Around<'_>,
        state: &mut State,
    ) -> Result<Arm, CheckFault>
        requires { N.ask self.now.nested }
        ensures { Gives tree.arm (turns.one_arm (view.around around.now) one.now (view.state state.old)) result (view.state state.new) }
    {
        let of = arm_labels(&one.labels, self.alloc, around, state)?;
        let place = enter_arm(of.as_slice(), self.alloc, around, state)?;
        let ArmPlace {
            scope,
            first,
            count,
        } = place;
        let near = *around;
        let inner = in_arm(of.as_slice(), &near)?;
        let body = self.in_scope(&one.body, &inner, state, scope)?;
        let (body, labels) = both(body, labels_of(of.as_slice(), self.alloc))?;
        Ok(Arm {
            labels,
            first,
            count,
            body,
        })
    }

    /// A statement in a scope of its own.
    fn in_scope(
        &self,
        one: &Statement,
        around: &Around<'_>,
        state: &mut State,
        scope: Names<Meaning>,
    ) -> Result<TypedStmt, CheckFault>
        requires { N.ask self.now.nested }
        ensures { Gives tree.stmt (in_scope (view.names scope) (spec.statement (view.around around.now) (plain.statement one.now)) (view.state state.old)) result (view.state state.new) }
    {
        let coming = state.enter(self.alloc, scope)?;
        let body = self.nested.statement(one, around, state)?;
        state.leave(coming);
        Ok(body)
    }
}
