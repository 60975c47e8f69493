//! Statements that hold no statement, each whole: with its operands counted and its number.
ghost use Rattle.std.specs.Prelude.{◌≡◌, ◌||◌};
ghost use Rattle.mesa_types.specs.Plain.{stmt};
ghost use Rattle.syntax_trees.specs.PlainSyntax as plain;
ghost use Rattle.syntax_trees.specs.Syntax as s;
ghost use Rattle.check_rules.specs.Checking as spec;
ghost use Rattle.check_rules.specs.Phrases as phrases;
ghost use Rattle.check_state.specs.Gives.{Gives};
ghost use Rattle.check_state.specs.Views as words;

use crate::holding::targets_hold;
use crate::inner::{assigned, called, raised, resumed_bare, resumed_with, returned_with, taken};
use crate::whole::Whole;
use check_declared::check_jumps::return_jump;
use check_expressions::{Checker, Phrases};
use check_phrases::{holds, items_hold, left_holds, raise_holds};
use check_rules::CheckFault;
use check_state::{Around, State};
use mesa_base::Place;
use mesa_types::TypedStmt;
use syntax_trees::syntax::{Entries, Expr, Left, ListExpr, Raise};

#[tactic(auto, using(syntax_trees::proofs::PlainForms::parts))]
fn start_of(left: &Left) -> Place
    ensures { result ≡ s.left_place (plain.left left.now) }
{
    left.name.place
}

#[tactic(auto, using(syntax_trees::proofs::PlainForms::raise_forms))]
fn start_of_raise(of: &Raise) -> Place
    ensures { result ≡ s.raise_place (plain.raise of.now) }
{
    match of {
        Raise::SignalRaise(place, _, _)
        | Raise::ErrorRaise(place, _, _)
        | Raise::UnnamedError(place) => *place,
    }
}

fn assign_holds(left: &Left, e: &Expr) -> bool
    ensures { result ≡ (phrases.in_left (plain.left left.now) || phrases.holds (plain.expr e.now)) }
{
    left_holds(left) || holds(e)
}

fn extract_holds(all: &Entries<Left>, e: &Expr) -> bool
    ensures { result ≡ (phrases.in_targets (plain.targets all.now) || phrases.holds (plain.expr e.now)) }
{
    targets_hold(all) || holds(e)
}

/// An assignment.
#[tactic(auto, using(crate::proofs::Clauses::assign_is))]
pub fn assign<P: Phrases>(
    checker: &Checker<P>,
    left: &Left,
    e: &Expr,
    around: &Around<'_>,
    state: &mut State,
) -> Result<TypedStmt, CheckFault>
    requires { P.ask checker.now.phrases }
    ensures { Gives stmt (spec.statement (words.around around.now) (s.Assign (plain.left left.now) (plain.expr e.now)) (words.state state.old)) result (words.state state.new) }
{
    let has_phrase = assign_holds(left, e);
    let whole = Whole::begin(around, state, has_phrase, 0, start_of(left))?;
    let made = assigned(checker, left, e, &whole.inner, state)?;
    whole.end(checker.alloc, state, made)
}

/// An extractor, at its bracket.
#[tactic(auto, using(crate::proofs::Clauses::extract_is))]
pub fn extract<P: Phrases>(
    checker: &Checker<P>,
    all: &Entries<Left>,
    e: &Expr,
    around: &Around<'_>,
    state: &mut State,
    place: Place,
) -> Result<TypedStmt, CheckFault>
    requires { P.ask checker.now.phrases }
    ensures { Gives stmt (spec.statement (words.around around.now) (s.Extract place (plain.targets all.now) (plain.expr e.now)) (words.state state.old)) result (words.state state.new) }
{
    let has_phrase = extract_holds(all, e);
    let whole = Whole::begin(around, state, has_phrase, 0, place)?;
    let made = taken(checker, all, e, &whole.inner, state, place)?;
    whole.end(checker.alloc, state, made)
}

/// A call that stands as a statement.
#[tactic(auto, using(crate::proofs::Clauses::call_is))]
pub fn call<P: Phrases>(
    checker: &Checker<P>,
    left: &Left,
    around: &Around<'_>,
    state: &mut State,
) -> Result<TypedStmt, CheckFault>
    requires { P.ask checker.now.phrases }
    ensures { Gives stmt (spec.statement (words.around around.now) (s.Call (plain.left left.now)) (words.state state.old)) result (words.state state.new) }
{
    let whole = Whole::begin(around, state, left_holds(left), 0, start_of(left))?;
    let made = called(checker, left, &whole.inner, state)?;
    whole.end(checker.alloc, state, made)
}

/// A raise that stands as a statement.
#[tactic(auto, using(crate::proofs::Clauses::raise_is))]
pub fn raise_statement<P: Phrases>(
    checker: &Checker<P>,
    of: &Raise,
    around: &Around<'_>,
    state: &mut State,
) -> Result<TypedStmt, CheckFault>
    requires { P.ask checker.now.phrases }
    ensures { Gives stmt (spec.statement (words.around around.now) (s.RaiseStatement (plain.raise of.now)) (words.state state.old)) result (words.state state.new) }
{
    let whole = Whole::begin(around, state, raise_holds(of), 0, start_of_raise(of))?;
    let made = raised(checker, of, &whole.inner, state)?;
    whole.end(checker.alloc, state, made)
}

/// RETURN, with values or without.
#[tactic(auto, using(crate::proofs::Clauses::return_none, crate::proofs::Clauses::return_some))]
pub fn return_statement<P: Phrases>(
    checker: &Checker<P>,
    list: &Option<ListExpr>,
    around: &Around<'_>,
    state: &mut State,
    place: Place,
) -> Result<TypedStmt, CheckFault>
    requires { P.ask checker.now.phrases }
    ensures { Gives stmt (spec.statement (words.around around.now) (s.Return place (plain.maybe_items list.now)) (words.state state.old)) result (words.state state.new) }
{
    match list {
        None => return_jump(around, place),
        Some(list) => {
            let has_phrase = items_hold(&list.item);
            let whole = Whole::begin(around, state, has_phrase, 0, place)?;
            let made = returned_with(checker, list, &whole.inner, state, place)?;
            whole.end(checker.alloc, state, made)
        }
    }
}

/// RESUME, with values or without.
#[tactic(auto, using(crate::proofs::Clauses::resume_none, crate::proofs::Clauses::resume_some))]
pub fn resume_statement<P: Phrases>(
    checker: &Checker<P>,
    list: &Option<ListExpr>,
    around: &Around<'_>,
    state: &mut State,
    place: Place,
) -> Result<TypedStmt, CheckFault>
    requires { P.ask checker.now.phrases }
    ensures { Gives stmt (spec.statement (words.around around.now) (s.Resume place (plain.maybe_items list.now)) (words.state state.old)) result (words.state state.new) }
{
    match list {
        None => resumed_bare(checker.alloc, around, place),
        Some(list) => {
            let has_phrase = items_hold(&list.item);
            let whole = Whole::begin(around, state, has_phrase, 0, place)?;
            let made = resumed_with(checker, list, &whole.inner, state, place)?;
            whole.end(checker.alloc, state, made)
        }
    }
}
