//! Heads of procedures, signals and errors: parameters and results, in a scope of their own.
ghost use Rattle.std.specs.Prelude.{◌≡◌, IfOk};
ghost use Rattle.syntax_trees.specs.PlainSyntax as syntax;
ghost use Rattle.check_rules.specs.Programs as spec;
ghost use Rattle.check_rules.specs.Scopes.{outer};
ghost use Rattle.check_state.specs.Gives.{Gives};
ghost use Rattle.check_state.specs.Views as words;
ghost use Rattle.check_heads.specs.Forms as form;
ghost use Rattle.check_heads.specs.Views as view;

use crate::heads::Heading;
use crate::naming::name_parameters;
use check_rules::CheckFault;
use check_scopes::Names;
use check_state::{Around, Meaning, State};
use check_written_types::check_expressions::{Checker, Phrases};
use check_written_types::{and_fields, type_exp, unnamed_fields};
use held_trees::both;
use mesa_base::{Identifiers, List, OutOfMemory};
use mesa_types::Fields;
use std::alloc::Global;
use std::mem::replace;
use syntax_trees::syntax::{FieldList, Labeled, TypeExp};

fn named_parameters<P: Phrases>(
    all: &[Labeled<Identifiers, TypeExp>],
    checker: &Checker<P>,
    around: &Around<'_>,
    state: &mut State,
) -> Result<Fields, CheckFault>
    requires { P.ask checker.now.phrases }
    ensures { Gives words.fields (spec.named_parameters (words.around around.now) (syntax.named_fields all.now) (words.state state.old)) result (words.state state.new) }
{
    let mut done = List::new(checker.alloc);
    for one in all {
        let names = one.labels.as_slice();
        let (held, _) = both(done, state.announce(checker.alloc, names))?;
        let (held, kind) = both(held, type_exp(&one.item, checker, around, state))?;
        done = and_fields(names, checker.alloc, kind, held)?;
    }
    Ok(done)
}

#[tactic(auto, using(syntax_trees::proofs::PlainForms::field_list_forms))]
fn parameters<P: Phrases>(
    fields: &Option<FieldList>,
    checker: &Checker<P>,
    around: &Around<'_>,
    state: &mut State,
) -> Result<Fields, CheckFault>
    requires { P.ask checker.now.phrases }
    ensures { Gives words.fields (spec.parameters (words.around around.now) (syntax.maybe_fields fields.now) (words.state state.old)) result (words.state state.new) }
{
    match fields {
        None => Ok(List::new(checker.alloc)),
        Some(FieldList::WithNames(all)) => named_parameters(all.as_slice(), checker, around, state),
        Some(FieldList::Unnamed(all)) => unnamed_fields(all.as_slice(), checker, around, state),
    }
}

/// Closes the scope, hands over what was coming in it, and this is coming from here on.
#[tactic(auto, unfolding(check_state::specs::Views::state))]
fn leave(alloc: Global, state: &mut State, outside: Names<Meaning>) -> Names<Meaning>
    ensures names { words.names result ≡ (words.state state.old).coming }
    ensures state { words.state state.new ≡ record (words.state state.old) { scopes = outer (words.state state.old).scopes; coming = words.names outside } }
{
    let inside = replace(&mut state.coming, Names::new(alloc));
    state.leave(outside);
    inside
}

fn made(
    alloc: Global,
    takes: Fields,
    gives: Fields,
    mut scope: Names<Meaning>,
) -> Result<Heading, OutOfMemory>
    ensures { IfOk result (λ made. view.heading made ≡ record { takes = words.fields takes; gives = words.fields gives; scope = spec.own_scope (words.fields takes) (words.fields gives) (words.names scope) }) }
{
    let named = name_parameters(takes.as_slice(), gives.as_slice(), alloc, &mut scope);
    let ((takes, gives), _) = both((takes, gives), named)?;
    Ok(Heading {
        takes,
        gives,
        scope,
    })
}

/// The head of a procedure, signal or error. No name of its parameters and results stands twice; the types in it do not see
/// them.
#[tactic(auto, unfolding(check_rules::specs::Programs::heading))]
pub fn heading<P: Phrases>(
    takes: &Option<FieldList>,
    gives: &Option<FieldList>,
    checker: &Checker<P>,
    around: &Around<'_>,
    state: &mut State,
) -> Result<Heading, CheckFault>
    requires { P.ask checker.now.phrases }
    ensures { Gives view.heading (spec.heading (words.around around.now) (syntax.maybe_fields takes.now) (syntax.maybe_fields gives.now) (words.state state.old)) result (words.state state.new) }
{
    let alloc = checker.alloc;
    let outside = state.enter(alloc, Names::new(alloc))?;
    let inner = around.inside();
    let takes = parameters(takes, checker, &inner, state)?;
    let (takes, gives) = both(takes, parameters(gives, checker, &inner, state))?;
    let inside = leave(alloc, state, outside);
    Ok(made(alloc, takes, gives, inside)?)
}
