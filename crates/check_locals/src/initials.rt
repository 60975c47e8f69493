//! What declarations do when they are reached.
ghost use Rattle.std.specs.Prelude.{◌≡◌};
ghost use Rattle.mesa_types.specs.Plain.{expr, stmt};
ghost use Rattle.syntax_trees.specs.PlainSyntax as plain;
ghost use Rattle.mesa_types.specs.Typed as t;
ghost use Rattle.check_rules.specs.Checking as spec;
ghost use Rattle.interface_records.specs.PlainTypes as v;
ghost use Rattle.check_rules.specs.Statements as rule;
ghost use Rattle.check_rules.specs.Steps as step;
ghost use Rattle.check_state.specs.Gives.{Gives};
ghost use Rattle.check_state.specs.Views as words;
ghost use Rattle.check_locals.specs.Rules as rules;
ghost use Rattle.check_locals.specs.Views as view;

use crate::headed::Headed;
use check_rules::CheckFault;
use check_scopes::Names;
use check_simple_statements::Whole;
use check_simple_statements::check_declared::first_name;
use check_simple_statements::check_expressions::{Checker, Phrases};
use check_simple_statements::check_operands::first;
use check_simple_statements::check_phrases::holds;
use check_state::{Aim, Around, Meaning, State};
use held_trees::{LetGo, both};
use mesa_base::Identifier;
use mesa_types::{Homes, TypeTree, TypedExpr, TypedStmt};
use syntax_trees::syntax::{Expr, PlainItem};

#[tactic(auto, using(crate::proofs::StmtForms::declare_form))]
fn declare(homes: Homes, kind: TypeTree) -> TypedStmt
    ensures { stmt result ≡ t.Declare homes (v.kind_of (v.plain kind)) }
{
    TypedStmt::Declare(homes, kind)
}

#[tactic(auto, using(crate::proofs::StmtForms::declare_as_form))]
fn declare_as(homes: Homes, kind: TypeTree, value: TypedExpr) -> TypedStmt
    ensures { stmt result ≡ t.DeclareAs homes (v.kind_of (v.plain kind)) (expr value) }
{
    TypedStmt::DeclareAs(homes, kind, value)
}

/// Variables with their initial value.
#[tactic(auto, unfolding(crate::specs::Rules::valued))]
fn valued<P: Phrases>(
    checker: &Checker<P>,
    value: &Expr,
    around: &Around<'_>,
    state: &mut State,
    homes: Homes,
    kind: TypeTree,
) -> Result<TypedStmt, CheckFault>
    requires { P.ask checker.now.phrases }
    ensures { Gives stmt (rules.valued (words.around around.now) homes (v.plain kind) (plain.expr value.now) (words.state state.old)) result (words.state state.new) }
{
    let found = checker.check(value, around, state, Aim::Into(&kind, first(value)));
    let (kind, found) = both(kind, found)?;
    Ok(declare_as(homes, kind, found.into_value()))
}

/// Variables with their initial value, with its operands counted and its number.
fn whole_value<P: Phrases>(
    checker: &Checker<P>,
    value: &Expr,
    around: &Around<'_>,
    state: &mut State,
    names: &[Identifier],
    given: (Homes, TypeTree, u64),
) -> Result<TypedStmt, CheckFault>
    requires { P.ask checker.now.phrases }
    ensures { Gives stmt (rules.whole_value (words.around around.now) names.now given.0 (v.plain given.1) given.2 (plain.expr value.now) (words.state state.old)) result (words.state state.new) }
{
    let (homes, kind, operands) = given;
    let whole = Whole::begin(around, state, holds(value), operands, first_name(names));
    let (kind, whole) = both(kind, whole)?;
    let made = valued(checker, value, &whole.inner, state, homes, kind)?;
    whole.end(checker.alloc, state, made)
}

/// Variables with their initial value, which sees these names in the innermost scope.
fn seeing<P: Phrases>(
    checker: &Checker<P>,
    value: &Expr,
    around: &Around<'_>,
    state: &mut State,
    names: &[Identifier],
    seen: Names<Meaning>,
    given: (Homes, TypeTree, u64),
) -> Result<TypedStmt, CheckFault>
    requires { P.ask checker.now.phrases }
    ensures { Gives stmt (step.seeing (words.names seen) (rules.whole_value (words.around around.now) names.now given.0 (v.plain given.1) given.2 (plain.expr value.now)) (words.state state.old)) result (words.state state.new) }
{
    let (homes, kind, operands) = given;
    let (kind, old) = both(kind, state.swap(checker.alloc, seen))?;
    let made = whole_value(
        checker,
        value,
        around,
        state,
        names,
        (homes, kind, operands),
    )?;
    let (made, _) = both(made, state.swap(checker.alloc, old))?;
    Ok(made)
}

/// What a declaration of these variables does, or of what has none.
#[tactic(auto, using(syntax_trees::proofs::PlainForms::plain_item_forms, crate::proofs::HeadClauses::initial_clauses))]
fn initial_of<P: Phrases>(
    checker: &Checker<P>,
    item: &PlainItem,
    around: &Around<'_>,
    state: &mut State,
    names: &[Identifier],
    seen: Names<Meaning>,
    given: (Homes, TypeTree, u64),
) -> Result<Option<TypedStmt>, CheckFault>
    requires { P.ask checker.now.phrases }
    ensures { Gives view.put (spec.initial (words.around around.now) names.now (plain.plain_item item.now) (rule.Variables given.0 (v.plain given.1) (words.names seen) given.2) (words.state state.old)) result (words.state state.new) }
{
    match item {
        PlainItem::Initial(_, value) => {
            let made = seeing(checker, value, around, state, names, seen, given)?;
            Ok(Some(made))
        }
        PlainItem::Variable(_) => {
            let (homes, kind, _) = given;
            Ok(Some(declare(homes, kind)))
        }
        PlainItem::TypeIs(_) => {
            let (_, kind, _) = given;
            kind.let_go();
            Ok(None)
        }
        PlainItem::Constant(_, _) => {
            let (_, kind, _) = given;
            kind.let_go();
            Ok(None)
        }
    }
}

/// What a declaration with this head does when it is reached, if anything.
#[tactic(auto, using(crate::proofs::HeadClauses::initial_none))]
pub fn initial<P: Phrases>(
    checker: &Checker<P>,
    item: &PlainItem,
    around: &Around<'_>,
    state: &mut State,
    names: &[Identifier],
    headed: Headed,
) -> Result<Option<TypedStmt>, CheckFault>
    requires { P.ask checker.now.phrases }
    ensures { Gives view.put (spec.initial (words.around around.now) names.now (plain.plain_item item.now) (view.headed headed) (words.state state.old)) result (words.state state.new) }
{
    match headed {
        Headed::Nothing => Ok(None),
        Headed::Variables {
            homes,
            kind,
            seen,
            words,
        } => {
            let given = (homes, kind, words);
            initial_of(checker, item, around, state, names, seen, given)
        }
    }
}
