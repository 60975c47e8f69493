//! A program whole: its declarations, its ENABLE, what its declarations leave, its statements and its EXITS.
ghost use Rattle.std.specs.Prelude.{◌≡◌, [], map, IfOk};
ghost use Rattle.check_programs.specs.Found.{all_found};
ghost use Rattle.check_programs.specs.Shown as step;
ghost use Rattle.check_programs.specs.Views as view;
ghost use Rattle.check_state.specs.Gives.{Gives, GivesOnly};
ghost use Rattle.check_state.specs.Views as words;
ghost use Rattle.check_rules.specs.Phrases.{is_catch};
ghost use Rattle.check_rules.specs.Programs as spec;
ghost use Rattle.mesa_types.specs.Plain.{kinds_of, phrase as plain_phrase, plain_body, stmt};
ghost use Rattle.syntax_trees.specs.PlainSyntax as plain;
ghost use Rattle.mesa_types.specs.Typed as t;
ghost use Rattle.check_statement_lists.specs.Views as parts_view;

use crate::catches::Catches;
use crate::found::{Found, Stated};
use crate::frames::few_locals;
use crate::heads_done::heads_are_done;
use crate::procedures::around_body;
use crate::trying::all_declared;
use crate::values::{Values, values_of};
use check_heads::Starts;
use check_heads::check_faces::Offer;
use check_rules::CheckFault;
use check_scopes::Marks;
use check_state::{Around, GrowingFields, Known, State};
use check_statement_lists::check_expressions::Checker;
use check_statement_lists::check_jumps::{labels_of_exits, with_labels};
use check_statements::{exits, phrase, statements_behind};
use held_trees::{LetGo, both, boxed, shared};
use mesa_base::{List, OutOfMemory, Place, Shared};
use mesa_types::{Exits, Fields, Item, Phrase, Stmts, TypedBody, TypedProcedures, TypedStmt};
use std::alloc::Global;
use std::collections::VecDeque;
use syntax_trees::syntax::{self, Inner};

/// What is asked of a program that is checked: its signals and errors, what it offers, its procedures and its body; which items of
/// its imports it names, and its variables.
pub struct Whole {
    pub signals: List<Shared<Item>>,
    pub offers: Vec<Offer>,
    pub procedures: TypedProcedures,
    pub body: TypedBody,
    pub used: Marks,
    pub globals: Fields,
}

impl LetGo for Whole {
    fn let_go(self) {
        let Whole {
            signals: _,
            offers: _,
            procedures,
            body,
            used: _,
            globals: _,
        } = self;
        procedures.let_go();
        body.let_go();
    }
}

/// Its procedures, and the block of its body.
pub struct Parts {
    pub procedures: TypedProcedures,
    pub does: TypedStmt,
}

impl LetGo for Parts {
    fn let_go(self) {
        let Parts { procedures, does } = self;
        procedures.let_go();
        does.let_go();
    }
}

#[tactic(auto, unfolding(check_statement_lists::specs::Views::stmts, check_statement_lists::specs::Views::exits))]
fn block_of(
    alloc: Global,
    enable: Phrase,
    statements: Stmts,
    exits: Exits,
) -> Result<TypedStmt, OutOfMemory>
    ensures { IfOk result (λ made. stmt made ≡ t.Block (plain_phrase enable) (parts_view.stmts statements) (parts_view.exits exits)) }
{
    let (held, enable) = both((statements, exits), boxed(alloc, enable))?;
    let (statements, exits) = held;
    Ok(TypedStmt::Block(enable, statements, exits))
}

/// The EXITS behind these statements.
fn and_exits(
    statements: Stmts,
    inner: &Inner,
    alloc: Global,
    around: &Around<'_>,
    state: &mut State,
) -> Result<(Stmts, Exits), CheckFault>
    ensures { Gives (λ x. (parts_view.stmts x.0, parts_view.exits x.1)) (step.with_exits (words.around around.now) (plain.inner inner.now) (parts_view.stmts statements) (words.state state.old)) result (words.state state.new) }
{
    let (statements, exits) = both(
        statements,
        exits(inner.exits.as_slice(), alloc, around, state),
    )?;
    Ok((statements, exits))
}

/// The statements behind those that give initial values, and the EXITS.
fn ends_of(
    inner: &Inner,
    before: Stmts,
    alloc: Global,
    around: &Around<'_>,
    inside: &Around<'_>,
    state: &mut State,
) -> Result<(Stmts, Exits), CheckFault>
    ensures { Gives (λ x. (parts_view.stmts x.0, parts_view.exits x.1)) (step.ends (words.around around.now) (words.around inside.now) (plain.inner inner.now) (parts_view.stmts before) (words.state state.old)) result (words.state state.new) }
{
    let all = inner.statements.as_slice();
    let statements = statements_behind(before, all, alloc, inside, state)?;
    and_exits(statements, inner, alloc, around, state)
}

/// What stands behind the heads: the ENABLE, initial values and procedures, statements, and EXITS.
fn parts_of(
    inner: &Inner,
    heads: VecDeque<Stated>,
    checker: &Checker<Catches>,
    around: &Around<'_>,
    inside: &Around<'_>,
    state: &mut State,
) -> Result<Parts, CheckFault>
    ensures { Gives view.parts (step.parts (words.around around.now) (words.around inside.now) (plain.inner inner.now) (map view.stated heads.items) (words.state state.old)) result (words.state state.new) }
{
    let alloc = checker.alloc;
    let enable = phrase(&inner.enable, alloc, inside, state)?;
    let (enable, values) = both(
        enable,
        values_of(inner.declarations.as_slice(), heads, checker, inside, state),
    )?;
    let Values {
        procedures,
        statements,
    } = values;
    let (held, ends) = both(
        (enable, procedures),
        ends_of(inner, statements, alloc, around, inside, state),
    )?;
    let ((enable, procedures), (statements, exits)) = (held, ends);
    let (procedures, does) = both(procedures, block_of(alloc, enable, statements, exits))?;
    Ok(Parts { procedures, does })
}

fn marked_if(is_marked: bool, alloc: Global, does: TypedStmt) -> Result<TypedStmt, OutOfMemory>
    ensures { IfOk result (λ made. stmt made ≡ spec.marked_if is_marked (stmt does)) }
{
    if is_marked {
        Ok(TypedStmt::Marked(0, boxed(alloc, does)?))
    } else {
        Ok(does)
    }
}

fn body_of(
    is_marked: bool,
    alloc: Global,
    variables: GrowingFields,
    does: TypedStmt,
) -> Result<TypedBody, OutOfMemory>
    ensures { IfOk result (λ made. plain_body made ≡ record { variables = kinds_of variables; does = spec.marked_if is_marked (stmt does) }) }
{
    let does = marked_if(is_marked, alloc, does)?;
    let does = shared(alloc, does)?;
    let (does, variables) = both(does, variables.into_list(alloc))?;
    Ok(TypedBody { variables, does })
}

fn has_phrase(enable: &Option<syntax::Phrase>) -> bool
    ensures { result ≡ is_catch (plain.phrase enable.now) }
{
    enable.is_some()
}

/// The heads of the module's own declarations.
#[tactic(auto, unfolding(check_state::specs::Views::around))]
fn heads_of<S: Starts>(
    inner: &Inner,
    checker: &Checker<Catches>,
    around: &Around<'_>,
    start: &S,
) -> Result<(Found, State), CheckFault>
    ensures { GivesOnly (λ x. (view.found x.0, words.state x.1)) (all_found (spec.outermost (words.around around.now)) (plain.inner inner.now).declarations (S.begins start.now)) result }
{
    let outermost = Around {
        is_outermost: true,
        ..*around
    };
    all_declared(inner.declarations.as_slice(), checker, &outermost, start)
}

/// A program, with what stands around its EXITS.
#[tactic(auto, using(crate::proofs::WholeLaws::whole_is), unfolding(check_state::specs::Views::state))]
fn whole_in<S: Starts>(
    inner: &Inner,
    checker: &Checker<Catches>,
    place: Place,
    around: &Around<'_>,
    start: &S,
) -> Result<Whole, CheckFault>
    ensures { GivesOnly view.whole (step.shown (spec.whole_in (words.around around.now) place (plain.inner inner.now) (S.begins start.now))) result }
{
    let alloc = checker.alloc;
    let outside = *around;
    let labelled = labels_of_exits(inner.exits.as_slice(), alloc, &outside)?;
    let inside = with_labels(&labelled, &outside);
    let (found, mut state) = heads_of(inner, checker, &inside, start)?;
    let Found {
        heads,
        procedures: _,
        signals,
        offers,
    } = found;
    heads_are_done(alloc, &mut state)?;
    let parts = parts_of(inner, heads, checker, around, &inside, &mut state)?;
    let (parts, ()) = both(parts, few_locals(&state, &[], &[], place))?;
    let Parts { procedures, does } = parts;
    let State {
        scopes: _,
        coming: _,
        used,
        globals,
        variables,
        hidden: _,
        operands: _,
    } = state;
    let body = body_of(has_phrase(&inner.enable), alloc, variables.fields, does);
    let trees = both(procedures, body)?;
    let ((procedures, body), globals) = both(trees, globals.fields.into_list(alloc))?;
    Ok(Whole {
        signals,
        offers,
        procedures,
        body,
        used,
        globals,
    })
}

/// In the statement that an ENABLE belongs to.
fn enabled<'a>(has_phrase: bool, around: &Around<'a>) -> Result<Around<'a>, OutOfMemory>
    ensures { IfOk result (λ made. words.around made ≡ spec.enabled has_phrase (words.around around.now)) }
{
    if has_phrase {
        around.in_statement()
    } else {
        Ok(*around)
    }
}

/// The program of this text, whose name stands at this place.
pub fn program_body<S: Starts>(
    inner: &Inner,
    alloc: Global,
    known: &Known,
    place: Place,
    start: &S,
) -> Result<Whole, CheckFault>
    ensures { GivesOnly view.whole (step.shown (spec.program_body (words.known known.now) place (plain.inner inner.now) (S.begins start.now))) result }
{
    let around = enabled(has_phrase(&inner.enable), &around_body(known, &[], &[]))?;
    let checker = Checker {
        alloc,
        phrases: Catches { alloc },
    };
    let whole = whole_in(inner, &checker, place, &around, start);
    let Checker {
        alloc: _,
        phrases: _,
    } = checker;
    whole
}
