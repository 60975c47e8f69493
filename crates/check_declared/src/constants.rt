//! What a declared constant means.
ghost use Rattle.std.specs.Prelude.{◌≡◌, Ok};
ghost use Rattle.mesa_types.specs.Constants as constants;
ghost use Rattle.mesa_types.specs.Plain.{expr};
ghost use Rattle.syntax_trees.specs.PlainSyntax as plain_syntax;
ghost use Rattle.interface_records.specs.PlainTypes.{plain};
ghost use Rattle.check_rules.specs.Meanings as meanings;
ghost use Rattle.check_rules.specs.Statements as spec;
ghost use Rattle.check_rules.specs.Steps.{and_then, or_refuse};
ghost use Rattle.check_rules.specs.declared.fault.Cause.TheVariants.{NotConstant};
ghost use Rattle.check_state.specs.Gives.{GivesOnly};
ghost use Rattle.check_state.specs.Views as view;

use check_rules::{Cause, CheckFault};
use check_state::{Around, Meaning, base_of, is_text};
use interface_records::typed_answers::constant;
use mesa_base::Place;
use mesa_types::{TypeTree, TypedExpr};
use std::alloc::Global;
use syntax_trees::syntax::Expr;

/// Whether the text of a value is a string literal, perhaps in parentheses.
#[tactic(auto, using(syntax_trees::proofs::PlainForms::expr_forms), unfolding(check_rules::specs::Statements::is_text_literal))]
fn is_text_literal(text: &Expr) -> bool
    ensures { result ≡ spec.is_text_literal (plain_syntax.expr text.now) }
{
    match text {
        Expr::StringLiteral(_, _) => true,
        Expr::Parenthesis(_, inner) => is_text_literal(inner.get()),
        Expr::Run(_, _)
        | Expr::Not(_, _)
        | Expr::Compare { .. }
        | Expr::Within { .. }
        | Expr::Signed(_, _, _)
        | Expr::NumberLiteral(_, _)
        | Expr::CharacterLiteral(_, _)
        | Expr::Truth(_, _)
        | Expr::Reference(_)
        | Expr::Constructor(_)
        | Expr::Raised(_) => false,
    }
}

fn text_constant(is_text: bool, place: Place, value: &TypedExpr) -> Result<Meaning, CheckFault>
    ensures { GivesOnly view.meaning (spec.text_constant is_text place (expr value.now)) result }
{
    match value {
        TypedExpr::Literal(number) if is_text => Ok(Meaning::TextConstant(*number)),
        _ => Err(CheckFault::At(Cause::NotConstant, place)),
    }
}

fn word_constant(
    kind: &TypeTree,
    alloc: Global,
    place: Place,
    value: &TypedExpr,
) -> Result<Meaning, CheckFault>
    ensures { GivesOnly view.meaning (and_then (or_refuse (constants.constant (expr value.now)) NotConstant place) (λ n. Ok (meanings.Constant (plain kind.now) n))) result }
{
    match constant(value) {
        None => Err(CheckFault::At(Cause::NotConstant, place)),
        Some(word) => Ok(Meaning::Constant(kind.copy(alloc)?, word)),
    }
}

/// What a constant of this type means, by its text and its value, which begins at this place.
#[tactic(auto, unfolding(check_rules::specs::Statements::constant_meaning, check_state::specs::Views::around, check_state::specs::Views::known))]
pub fn constant_meaning(
    text: &Expr,
    alloc: Global,
    around: &Around<'_>,
    kind: &TypeTree,
    place: Place,
    value: &TypedExpr,
) -> Result<Meaning, CheckFault>
    ensures { GivesOnly view.meaning (spec.constant_meaning (view.around around.now) (plain kind.now) (plain_syntax.expr text.now) place (expr value.now)) result }
{
    if base_of(kind).is_some() {
        word_constant(kind, alloc, place, value)
    } else {
        let is_text = around.known.is_program && is_text(kind) && is_text_literal(text);
        text_constant(is_text, place, value)
    }
}
