//! Where statements begin.
ghost use Rattle.std.specs.Prelude.{◌≡◌};
ghost use Rattle.syntax_trees.specs.Syntax as s;
ghost use Rattle.syntax_trees.specs.PlainSyntax as plain;

use crate::syntax::{Block, Condition, Control, Count, Left, Raise, Statement};
use held_trees::mesa_base::Place;

#[tactic(auto, using(crate::proofs::PlainForms::parts))]
fn left_place(left: &Left) -> Place
    ensures { result ≡ s.left_place (plain.left left.now) }
{
    left.name.place
}

#[tactic(auto, using(crate::proofs::PlainForms::raise_forms))]
fn raise_place(raise: &Raise) -> Place
    ensures { result ≡ s.raise_place (plain.raise raise.now) }
{
    match raise {
        Raise::SignalRaise(place, _, _)
        | Raise::ErrorRaise(place, _, _)
        | Raise::UnnamedError(place) => *place,
    }
}

#[tactic(auto, using(crate::proofs::PlainForms::parts))]
fn block_place(block: &Block) -> Place
    ensures { result ≡ s.block_place (plain.block block.now) }
{
    block.place
}

#[tactic(auto, using(crate::proofs::PlainForms::parts, crate::proofs::PlainForms::count_forms, crate::proofs::PlainForms::condition_forms))]
fn control_place(control: &Control, at_do: Place) -> Place
    ensures { result ≡ s.control_place (plain.control control.now) at_do }
{
    match (&control.count, &control.condition) {
        (Some(Count::For { place, .. } | Count::Through(place, _)), _) => *place,
        (None, Some(Condition::While(place, _) | Condition::Until(place, _))) => *place,
        (None, None) => at_do,
    }
}

/// The place of a statement's first token.
#[tactic(auto, using(crate::proofs::PlainForms::statement_forms))]
pub fn first_place(statement: &Statement) -> Place
    ensures { result ≡ s.first_place (plain.statement statement.now) }
{
    match statement {
        Statement::Nested(block) => block_place(block),
        Statement::Assign(left, _) | Statement::Call(left) => left_place(left),
        Statement::RaiseStatement(raise) => raise_place(raise.get()),
        Statement::Loop(control, at_do, _, _, _) => control_place(control.get(), *at_do),
        Statement::Null(place)
        | Statement::Extract(place, _, _)
        | Statement::If(place, _, _, _)
        | Statement::Select(place, _, _, _)
        | Statement::ExitLoop(place)
        | Statement::NextTurn(place)
        | Statement::Goto(place, _)
        | Statement::Return(place, _)
        | Statement::Resume(place, _)
        | Statement::Reject(place)
        | Statement::Retry(place)
        | Statement::Continue(place) => *place,
    }
}
