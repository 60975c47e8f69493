//! Heads of declarations.
ghost use Rattle.syntax_trees.specs.PlainSyntax as plain;
ghost use Rattle.check_rules.specs.Checking as spec;
ghost use Rattle.check_state.specs.Gives.{Gives};
ghost use Rattle.check_state.specs.Views as words;
ghost use Rattle.check_locals.specs.Rules as rules;
ghost use Rattle.check_locals.specs.Views as view;

use crate::headed::{Headed, declare};
use check_rules::CheckFault;
use check_simple_statements::check_declared::{constant_meaning, first_name};
use check_simple_statements::check_expressions::{Checker, Phrases};
use check_simple_statements::check_operands::first;
use check_simple_statements::check_selectors::let_meaning_go;
use check_simple_statements::count_ended;
use check_state::{Aim, Around, Meaning, State};
use check_written_types::type_exp;
use held_trees::{LetGo, both};
use mesa_base::{Identifier, Place};
use syntax_trees::syntax::{Expr, PlainItem, TypeExp};

/// A type.
#[tactic(auto, unfolding(crate::specs::Rules::type_head))]
fn type_head<P: Phrases>(
    checker: &Checker<P>,
    e: &TypeExp,
    around: &Around<'_>,
    state: &mut State,
    names: &[Identifier],
) -> Result<Headed, CheckFault>
    requires { P.ask checker.now.phrases }
    ensures { Gives view.headed (rules.type_head (words.around around.now) names.now (plain.type_exp e.now) (words.state state.old)) result (words.state state.new) }
{
    state.announce(checker.alloc, names)?;
    let meaning = Meaning::TypeName(type_exp(e, checker, around, state)?);
    let settled = state.settle(checker.alloc, names, &meaning);
    let_meaning_go(meaning);
    settled?;
    Ok(Headed::Nothing)
}

/// Variables without an initial value.
#[tactic(auto, unfolding(crate::specs::Rules::variable_head))]
fn variable_head<P: Phrases>(
    checker: &Checker<P>,
    e: &TypeExp,
    around: &Around<'_>,
    state: &mut State,
    names: &[Identifier],
) -> Result<Headed, CheckFault>
    requires { P.ask checker.now.phrases }
    ensures { Gives view.headed (rules.variable_head (words.around around.now) names.now (plain.type_exp e.now) (words.state state.old)) result (words.state state.new) }
{
    state.announce(checker.alloc, names)?;
    let kind = type_exp(e, checker, around, state)?;
    declare(names, checker.alloc, around, state, kind, 0)
}

/// Variables with an initial value, for which the operands of their type count.
#[tactic(auto, unfolding(crate::specs::Rules::initial_head))]
fn initial_head<P: Phrases>(
    checker: &Checker<P>,
    e: &TypeExp,
    around: &Around<'_>,
    state: &mut State,
    names: &[Identifier],
) -> Result<Headed, CheckFault>
    requires { P.ask checker.now.phrases }
    ensures { Gives view.headed (rules.initial_head (words.around around.now) names.now (plain.type_exp e.now) (words.state state.old)) result (words.state state.new) }
{
    state.announce(checker.alloc, names)?;
    let outside = state.count_from(0);
    let kind = type_exp(e, checker, around, state)?;
    let operands = state.count_from(outside);
    declare(names, checker.alloc, around, state, kind, operands)
}

/// What a constant of a written type means.
#[tactic(auto, unfolding(crate::specs::Rules::constant_value))]
fn constant_value<P: Phrases>(
    checker: &Checker<P>,
    e: &TypeExp,
    around: &Around<'_>,
    state: &mut State,
    value: &Expr,
) -> Result<Meaning, CheckFault>
    requires { P.ask checker.now.phrases }
    ensures { Gives words.meaning (rules.constant_value (words.around around.now) (plain.type_exp e.now) (plain.expr value.now) (words.state state.old)) result (words.state state.new) }
{
    let start = first(value);
    let kind = type_exp(e, checker, around, state)?;
    let aim = Aim::Into(&kind, start);
    let found = checker.check(value, &around.in_constant(start), state, aim);
    let (kind, found) = both(kind, found)?;
    let found = found.into_value();
    let meaning = constant_meaning(value, checker.alloc, around, &kind, start, &found);
    (kind, found).let_go();
    meaning
}

/// A constant.
#[tactic(auto, unfolding(crate::specs::Rules::constant_head))]
fn constant_head<P: Phrases>(
    checker: &Checker<P>,
    e: &TypeExp,
    around: &Around<'_>,
    state: &mut State,
    names: &[Identifier],
    value: &Expr,
) -> Result<Headed, CheckFault>
    requires { P.ask checker.now.phrases }
    ensures { Gives view.headed (rules.constant_head (words.around around.now) names.now (plain.type_exp e.now) (plain.expr value.now) (words.state state.old)) result (words.state state.new) }
{
    state.announce(checker.alloc, names)?;
    let meaning = constant_value(checker, e, around, state, value)?;
    let settled = state.settle(checker.alloc, names, &meaning);
    let_meaning_go(meaning);
    settled?;
    Ok(Headed::Nothing)
}

/// A head whose words of operands are counted since `State::count_from`.
fn head_ended(
    state: &mut State,
    place: Place,
    outside: u64,
    made: Headed,
) -> Result<Headed, CheckFault>
    ensures { Gives view.headed (rules.head_ended place outside (view.headed made) (words.state state.old)) result (words.state state.new) }
{
    let few = count_ended(state, 0, place, outside);
    let (made, _) = both(made, few)?;
    Ok(made)
}

/// The head of a declaration of these names. A name that is declared already is refused at its place, a fault of the type or of a
/// constant's value at its own, and too many words of operands at the first of the names.
#[tactic(auto, using(syntax_trees::proofs::PlainForms::plain_item_forms, crate::proofs::HeadClauses::head_clauses))]
pub fn head<P: Phrases>(
    checker: &Checker<P>,
    item: &PlainItem,
    around: &Around<'_>,
    state: &mut State,
    names: &[Identifier],
) -> Result<Headed, CheckFault>
    requires { P.ask checker.now.phrases }
    ensures { Gives view.headed (spec.head (words.around around.now) names.now (plain.plain_item item.now) (words.state state.old)) result (words.state state.new) }
{
    match item {
        PlainItem::Initial(e, _) => initial_head(checker, e, around, state, names),
        PlainItem::TypeIs(e) => {
            let outside = state.count_from(0);
            let made = type_head(checker, e, around, state, names)?;
            head_ended(state, first_name(names), outside, made)
        }
        PlainItem::Variable(e) => {
            let outside = state.count_from(0);
            let made = variable_head(checker, e, around, state, names)?;
            head_ended(state, first_name(names), outside, made)
        }
        PlainItem::Constant(e, value) => {
            let outside = state.count_from(0);
            let made = constant_head(checker, e, around, state, names, value)?;
            head_ended(state, first_name(names), outside, made)
        }
    }
}
