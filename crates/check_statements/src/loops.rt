//! Loops.
ghost use Rattle.std.specs.Prelude.{◌≡◌};
ghost use Rattle.mesa_types.specs.Plain as tree;
ghost use Rattle.syntax_trees.specs.PlainSyntax as plain;
ghost use Rattle.syntax_trees.specs.Syntax as s;
ghost use Rattle.check_rules.specs.Checking as spec;
ghost use Rattle.check_state.specs.Gives.{Gives};
ghost use Rattle.check_state.specs.Views as view;
ghost use Rattle.check_statements.specs.Rules as rules;

use crate::checker::StatementChecker;
use crate::making::{block_of, loop_of, marked, no_exits};
use check_rules::CheckFault;
use check_simple_statements::{Controlled, Whole, control, looped};
use check_state::{Around, State};
use check_statement_lists::Nested;
use check_statement_lists::check_jumps::{in_round, labels_of_repeats};
use held_trees::{both, boxed};
use mesa_base::Place;
use mesa_types::TypedStmt;
use syntax_trees::syntax::{self, Condition, Control, Count, Repeat, Statement};

#[tactic(auto, using(syntax_trees::proofs::PlainForms::condition_forms))]
fn condition_place(condition: &Option<Condition>, at_do: Place) -> Place
    ensures { result ≡ s.condition_place (plain.maybe_condition condition.now) at_do }
{
    match condition {
        None => at_do,
        Some(Condition::While(place, _)) | Some(Condition::Until(place, _)) => *place,
    }
}

/// The place of a loop's first token, whose DO is here.
#[tactic(auto, using(syntax_trees::proofs::PlainForms::parts, syntax_trees::proofs::PlainForms::count_forms))]
fn control_place(control: &Control, at_do: Place) -> Place
    ensures { result ≡ s.control_place (plain.control control.now) at_do }
{
    match &control.count {
        None => condition_place(&control.condition, at_do),
        Some(Count::For { place, .. }) => *place,
        Some(Count::Through(place, _)) => *place,
    }
}

impl<N: Nested> StatementChecker<N> {
    /// The body of a loop, which has this number, in the loop's ENABLE.
    #[tactic(auto, unfolding(crate::specs::Rules::round_in))]
    fn round_in(
        &self,
        enable: &Option<syntax::Phrase>,
        statements: &[Statement],
        around: &Around<'_>,
        state: &mut State,
        number: u32,
    ) -> Result<TypedStmt, CheckFault>
        requires { N.ask self.now.expressions.phrases.nested }
        ensures { Gives tree.stmt (rules.round_in (view.around around.now) number (plain.phrase enable.now) (plain.statements statements.now) (view.state state.old)) result (view.state state.new) }
    {
        let phrase = self.phrase(enable, around, state)?;
        let made = self
            .expressions
            .phrases
            .statements(statements, around, state);
        let (phrase, statements) = both(phrase, made)?;
        let (statements, phrase) = both(statements, boxed(self.alloc(), phrase))?;
        let body = block_of(phrase, statements, no_exits(self.alloc()));
        Ok(marked(number, boxed(self.alloc(), body)?))
    }

    /// The same with the loop's labels.
    fn round(
        &self,
        enable: &Option<syntax::Phrase>,
        statements: &[Statement],
        repeats: &[Repeat],
        around: &Around<'_>,
        state: &mut State,
    ) -> Result<TypedStmt, CheckFault>
        requires { N.ask self.now.expressions.phrases.nested }
        ensures { Gives tree.stmt (rules.round (view.around around.now) (plain.phrase enable.now) (plain.statements statements.now) (plain.repeats repeats.now) (view.state state.old)) result (view.state state.new) }
    {
        let near = *around;
        let labelled = labels_of_repeats(repeats, self.alloc(), &near)?;
        let inner = in_round(&labelled, &near)?;
        self.round_in(enable, statements, &inner, state, near.marked)
    }

    /// The parts of a loop.
    #[tactic(auto, unfolding(crate::specs::Rules::loop_inside))]
    fn loop_inside(
        &self,
        before: &Control,
        enable: &Option<syntax::Phrase>,
        statements: &[Statement],
        repeats: &[Repeat],
        around: &Around<'_>,
        state: &mut State,
    ) -> Result<TypedStmt, CheckFault>
        requires { N.ask self.now.expressions.phrases.nested }
        ensures { Gives tree.stmt (rules.loop_inside (view.around around.now) (plain.control before.now) (plain.phrase enable.now) (plain.statements statements.now) (plain.repeats repeats.now) (view.state state.old)) result (view.state state.new) }
    {
        let before = control(&self.expressions, before, around, state)?;
        let body = self.round(enable, statements, repeats, around, state);
        let (before, body) = both(before, body)?;
        let left = self.expressions.phrases.repeats(repeats, around, state);
        let (held, left) = both((before, body), left)?;
        let (Controlled { count, condition }, body) = held;
        let made = loop_of(condition, body, left);
        Ok(looped(self.alloc(), count, made)?)
    }

    /// A loop, whose DO is here.
    #[tactic(auto, using(crate::proofs::Clauses::loop_is))]
    pub fn loop_statement(
        &self,
        place: Place,
        before: &Control,
        enable: &Option<syntax::Phrase>,
        statements: &[Statement],
        repeats: &[Repeat],
        around: &Around<'_>,
        state: &mut State,
    ) -> Result<TypedStmt, CheckFault>
        requires { N.ask self.now.expressions.phrases.nested }
        ensures { Gives tree.stmt (spec.statement (view.around around.now) (s.Loop (plain.control before.now) place (plain.phrase enable.now) (plain.statements statements.now) (plain.repeats repeats.now)) (view.state state.old)) result (view.state state.new) }
    {
        let start = control_place(before, place);
        let whole = Whole::begin(around, state, true, 0, start)?;
        let inner = &whole.inner;
        let made = self.loop_inside(before, enable, statements, repeats, inner, state)?;
        whole.end(self.alloc(), state, made)
    }
}
