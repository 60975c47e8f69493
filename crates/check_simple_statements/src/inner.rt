//! What statements that hold no statement are, inside of what counts their operands.
ghost use Rattle.std.specs.Prelude.{◌≡◌, IfOk};
ghost use Rattle.mesa_types.specs.Plain.{expr, stmt};
ghost use Rattle.syntax_trees.specs.PlainSyntax as plain;
ghost use Rattle.mesa_types.specs.Typed as t;
ghost use Rattle.check_rules.specs.Statements as rule;
ghost use Rattle.check_state.specs.Gives.{Gives, GivesOnly};
ghost use Rattle.check_state.specs.Views as words;
ghost use Rattle.check_declared.specs.Views as declared;
ghost use Rattle.check_operands.specs.Views as parts;
ghost use Rattle.check_selectors.specs.Views as reaching;
ghost use Rattle.check_simple_statements.specs.Rules as rules;
ghost use Rattle.check_simple_statements.specs.Views as view;

use crate::storing::{target, targets};
use check_declared::check_jumps::{resumed, return_jump};
use check_declared::{Source, source_of};
use check_expressions::{Checker, Phrases};
use check_operands::{Arguments, At, first, nothing_given};
use check_rules::{Cause, CheckFault};
use check_selectors::{Target, Use, led_to, performed};
use check_state::{Aim, Around, State, named, narrow};
use held_trees::{LetGo, both};
use mesa_base::{OutOfMemory, Place};
use mesa_types::{Targets, TypedExpr, TypedStmt};
use std::alloc::Global;
use syntax_trees::syntax::{Entries, Expr, Left, ListExpr, Raise};

#[tactic(auto, unfolding(check_selectors::specs::Views::suffixes))]
fn store(to: Target, value: TypedExpr) -> TypedStmt
    ensures { stmt result ≡ t.Assign (reaching.target to).home (reaching.target to).suffixes (expr value) }
{
    let Target {
        home,
        suffixes,
        kind,
    } = to;
    kind.let_go();
    TypedStmt::Assign(home, suffixes, value)
}

/// What is stored.
#[tactic(auto, unfolding(crate::specs::Rules::assigned))]
pub(crate) fn assigned<P: Phrases>(
    checker: &Checker<P>,
    left: &Left,
    e: &Expr,
    around: &Around<'_>,
    state: &mut State,
) -> Result<TypedStmt, CheckFault>
    requires { P.ask checker.now.phrases }
    ensures { Gives stmt (rules.assigned (words.around around.now) (plain.left left.now) (plain.expr e.now) (words.state state.old)) result (words.state state.new) }
{
    let to = target(checker, left, around, state)?;
    let found = checker.check(e, around, state, Aim::Into(&to.kind, first(e)));
    let (to, found) = both(to, found)?;
    Ok(store(to, found.into_value()))
}

#[tactic(auto, unfolding(crate::specs::Views::targets))]
fn take_apart(from: Source, all: Targets) -> TypedStmt
    ensures { stmt result ≡ t.Extract (declared.source from).of_record (view.targets all) (declared.source from).value }
{
    let Source {
        of_record,
        value,
        kind,
        gave: _,
    } = from;
    kind.let_go();
    TypedStmt::Extract(of_record, all, value)
}

/// What an extractor takes apart, at its bracket.
#[tactic(auto, unfolding(crate::specs::Rules::taken))]
pub(crate) fn taken<P: Phrases>(
    checker: &Checker<P>,
    all: &Entries<Left>,
    e: &Expr,
    around: &Around<'_>,
    state: &mut State,
    place: Place,
) -> Result<TypedStmt, CheckFault>
    requires { P.ask checker.now.phrases }
    ensures { Gives stmt (rules.taken (words.around around.now) place (plain.targets all.now) (plain.expr e.now) (words.state state.old)) result (words.state state.new) }
{
    let start = first(e);
    let found = checker.check(e, around, state, Aim::Several(start))?;
    let from = source_of(start, found)?;
    let made = targets(checker, all, around, state, (place, start), from.fields());
    let (from, made) = both(from, made)?;
    Ok(take_apart(from, made))
}

fn perform(value: TypedExpr) -> TypedStmt
    ensures { stmt result ≡ t.Perform (expr value) }
{
    TypedStmt::Perform(value)
}

/// What is called.
#[tactic(auto, using(syntax_trees::proofs::PlainForms::parts), unfolding(crate::specs::Rules::called))]
pub(crate) fn called<P: Phrases>(
    checker: &Checker<P>,
    left: &Left,
    around: &Around<'_>,
    state: &mut State,
) -> Result<TypedStmt, CheckFault>
    requires { P.ask checker.now.phrases }
    ensures { Gives stmt (rules.called (words.around around.now) (plain.left left.now) (words.state state.old)) result (words.state state.new) }
{
    let start = left.name.place;
    let meaning = named(checker.alloc, around, state, &left.name)?;
    let at = At {
        last: start,
        reached: led_to(checker.alloc, meaning)?,
    };
    let at = checker.walk(left.suffixes.as_slice(), around, state, Use::Perform, at)?;
    let At { last, reached } = at;
    Ok(perform(performed(checker.alloc, state, start, last, reached)?))
}

/// What is raised.
#[tactic(auto, unfolding(crate::specs::Rules::raised))]
pub(crate) fn raised<P: Phrases>(
    checker: &Checker<P>,
    of: &Raise,
    around: &Around<'_>,
    state: &mut State,
) -> Result<TypedStmt, CheckFault>
    requires { P.ask checker.now.phrases }
    ensures { Gives stmt (rules.raised (words.around around.now) (plain.raise of.now) (words.state state.old)) result (words.state state.new) }
{
    let at = checker.raise(of, around, state)?;
    let At { last, reached } = at;
    Ok(perform(performed(checker.alloc, state, last, last, reached)?))
}

#[tactic(auto, unfolding(check_operands::specs::Views::exprs))]
fn give_back(arms: u32, first: u32, given: Arguments) -> TypedStmt
    ensures { stmt result ≡ t.ReturnWith arms first (parts.arguments given).places (parts.arguments given).values }
{
    let Arguments { places, values } = given;
    TypedStmt::ReturnWith(arms, first, places, values)
}

/// RETURN with values, in a procedure with results; the jump is that of one without.
#[tactic(auto, using(crate::proofs::Clauses::returned_none, crate::proofs::Clauses::returned_some), unfolding(check_state::specs::Views::around))]
fn returned(
    around: &Around<'_>,
    jump: TypedStmt,
    given: Arguments,
) -> Result<TypedStmt, OutOfMemory>
    ensures { IfOk result (λ made. stmt made ≡ rule.returned (words.around around.now) (stmt jump) (parts.arguments given)) }
{
    if around.gives.is_empty() {
        given.let_go();
        return Ok(jump);
    }
    jump.let_go();
    let (given, first) = both(given, narrow(around.takes.len()))?;
    Ok(give_back(around.arms, first, given))
}

/// RETURN with values.
#[tactic(auto, unfolding(crate::specs::Rules::returned_with, check_state::specs::Views::around))]
pub(crate) fn returned_with<P: Phrases>(
    checker: &Checker<P>,
    list: &ListExpr,
    around: &Around<'_>,
    state: &mut State,
    place: Place,
) -> Result<TypedStmt, CheckFault>
    requires { P.ask checker.now.phrases }
    ensures { Gives stmt (rules.returned_with (words.around around.now) place list.now.place (plain.items list.now.item) (words.state state.old)) result (words.state state.new) }
{
    let jump = return_jump(around, place)?;
    let given = checker.arguments(&list.item, around, state, around.gives, list.place);
    let (jump, given) = both(jump, given)?;
    Ok(returned(around, jump, given)?)
}

#[tactic(auto, unfolding(check_operands::specs::Views::exprs))]
fn resume(given: Arguments) -> TypedStmt
    ensures { stmt result ≡ t.Resume (parts.arguments given).places (parts.arguments given).values }
{
    let Arguments { places, values } = given;
    TypedStmt::Resume(places, values)
}

/// RESUME with values.
#[tactic(auto, unfolding(crate::specs::Rules::resumed_with))]
pub(crate) fn resumed_with<P: Phrases>(
    checker: &Checker<P>,
    list: &ListExpr,
    around: &Around<'_>,
    state: &mut State,
    place: Place,
) -> Result<TypedStmt, CheckFault>
    requires { P.ask checker.now.phrases }
    ensures { Gives stmt (rules.resumed_with (words.around around.now) place list.now.place (plain.items list.now.item) (words.state state.old)) result (words.state state.new) }
{
    let results = resumed(around, place)?;
    let given = checker.arguments(&list.item, around, state, results, list.place)?;
    Ok(resume(given))
}

/// RESUME without values.
#[tactic(auto, unfolding(crate::specs::Rules::resumed_bare))]
pub(crate) fn resumed_bare(
    alloc: Global,
    around: &Around<'_>,
    place: Place,
) -> Result<TypedStmt, CheckFault>
    ensures { GivesOnly stmt (rules.resumed_bare (words.around around.now) place) result }
{
    let results = resumed(around, place)?;
    if !results.is_empty() {
        return Err(CheckFault::At(Cause::WrongCount, place));
    }
    Ok(resume(nothing_given(alloc)))
}
