//! Where expressions begin.
ghost use Rattle.std.specs.Prelude.{◌≡◌};
ghost use Rattle.syntax_trees.specs.Syntax as s;
ghost use Rattle.syntax_trees.specs.PlainSyntax as plain;
ghost use Rattle.check_rules.specs.Parts as spec;

use mesa_base::Place;
use syntax_trees::syntax::{Expr, Interval, Left, Raise};

#[tactic(auto, using(syntax_trees::proofs::PlainForms::parts))]
fn left_place(left: &Left) -> Place
    ensures { result ≡ s.left_place (plain.left left.now) }
{
    left.name.place
}

#[tactic(auto, using(syntax_trees::proofs::PlainForms::raise_forms))]
fn raise_place(raise: &Raise) -> Place
    ensures { result ≡ s.raise_place (plain.raise raise.now) }
{
    match raise {
        Raise::SignalRaise(place, _, _)
        | Raise::ErrorRaise(place, _, _)
        | Raise::UnnamedError(place) => *place,
    }
}

/// The place of an expression's first token.
#[tactic(auto, using(syntax_trees::proofs::PlainForms::expr_forms), unfolding(check_rules::specs::Parts::first))]
pub fn first(e: &Expr) -> Place
    ensures { result ≡ spec.first (plain.expr e.now) }
{
    match e {
        Expr::Run(e, _) => first(e.get()),
        Expr::Compare { left, .. } => first(left.get()),
        Expr::Within { value, .. } => first(value.get()),
        Expr::Reference(left) => left_place(left),
        Expr::Raised(raise) => raise_place(raise.get()),
        Expr::Constructor(list) => list.place,
        Expr::Not(place, _)
        | Expr::Signed(_, place, _)
        | Expr::NumberLiteral(place, _)
        | Expr::CharacterLiteral(place, _)
        | Expr::StringLiteral(place, _)
        | Expr::Truth(place, _)
        | Expr::Parenthesis(place, _) => *place,
    }
}

/// The place of an interval's bracket.
#[tactic(auto, using(syntax_trees::proofs::PlainForms::parts))]
pub fn first_of_interval(interval: &Interval) -> Place
    ensures { result ≡ spec.first_of_interval (plain.interval interval.now) }
{
    interval.place
}
