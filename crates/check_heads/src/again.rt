//! A declaration with a fault is tried again, with the heads that stand further on. Nothing is done for it before a fault.
ghost use Rattle.std.specs.Prelude.{◌≡◌, ◌≢◌, List, Err, IfOk};
ghost use Rattle.mesa_base.specs.declared.identifier.Identifier.{Identifier as Name};
ghost use Rattle.check_rules.specs.Around as place;
ghost use Rattle.check_rules.specs.Programs as spec;
ghost use Rattle.check_rules.specs.Steps as step;
ghost use Rattle.check_rules.specs.declared.fault.CheckFault.TheVariants.{Memory};
ghost use Rattle.check_state.specs.Gives.{Gives, GivesOnly, fault};
ghost use Rattle.check_state.specs.Views as words;
ghost use Rattle.check_heads.specs.Again as again;

use crate::scopes::{head_names, pass_over};
use check_rules::CheckFault;
use check_scopes::Names;
use check_state::{Around, Meaning, State};
use mesa_base::{Identifier, OutOfMemory};
use std::alloc::Global;

/// Declarations that may be tried again, from the state before the one in hand.
pub trait Tries<D> {
    /// It may be asked.
    ghost ask: { Self → Type 0 };

    /// The state before the declaration in hand.
    ghost before: { Self → step.State };

    ghost named: { D → List Name };

    /// What a declaration does, with the numbers of the one in hand.
    ghost rule: { Self → place.Around → D → step.Check (Unit {0}) };

    /// That state, made anew.
    fn begin(&self) -> Result<State, CheckFault>
        requires { ask self.now }
        ensures { IfOk result (λ state. words.state state ≡ before self.now) };

    /// The names that are declared.
    fn names<'a>(&self, one: &'a D) -> &'a [Identifier]
        ensures { result.now ≡ named one.now };

    /// Declares them.
    fn declare(&self, one: &D, around: &Around<'_>, state: &mut State) -> Result<(), CheckFault>
        requires { ask self.now }
        ensures { Gives (λ _. tt) (rule self.now (words.around around.now) one.now (words.state state.old)) result (words.state state.new) };
}

/// The state before the declaration in hand. It has been made before, so nothing but want of memory keeps it from being made again.
fn begun<D, T: Tries<D>>(tries: &T) -> Result<State, OutOfMemory>
    requires { T.ask tries.now }
    ensures { IfOk result (λ state. words.state state ≡ T.before tries.now) }
{
    match tries.begin() {
        Ok(state) => Ok(state),
        Err(_) => Err(OutOfMemory),
    }
}

/// The state behind the declaration in hand, which is passed over.
fn behind_it<D, T: Tries<D>>(tries: &T, alloc: Global, one: &D) -> Result<State, OutOfMemory>
    requires { T.ask tries.now }
    ensures { IfOk result (λ state. words.state state ≡ spec.passed_over (T.named one.now) (T.before tries.now)) }
{
    let mut state = begun(tries)?;
    pass_over(tries.names(one), alloc, &mut state)?;
    Ok(state)
}

/// The state behind this one, which is passed over if it has a fault.
fn behind<D, T: Tries<D>>(
    tries: &T,
    alloc: Global,
    around: &Around<'_>,
    one: &D,
    state: State,
) -> Result<State, OutOfMemory>
    requires { T.ask tries.now }
    ensures { IfOk result (λ next. words.state next ≡ again.next T.named (T.rule tries.now (words.around around.now)) one.now (words.state state)) }
{
    let (mut before, mut state) = state.twice(alloc)?;
    match tries.declare(one, around, &mut state) {
        Ok(()) => Ok(state),
        Err(CheckFault::Memory) => Err(OutOfMemory),
        Err(CheckFault::At(_, _)) => {
            pass_over(tries.names(one), alloc, &mut before)?;
            Ok(before)
        }
    }
}

/// The state behind all others; those with a fault are passed over.
fn behind_all<D, T: Tries<D>>(
    tries: &T,
    alloc: Global,
    around: &Around<'_>,
    one: &D,
    others: &[D],
) -> Result<State, OutOfMemory>
    requires { T.ask tries.now }
    ensures { IfOk result (λ state. words.state state ≡ spec.behind T.named (T.rule tries.now (words.around around.now)) others.now (spec.passed_over (T.named one.now) (T.before tries.now))) }
{
    let mut state = behind_it(tries, alloc, one)?;
    for other in others {
        state = behind(tries, alloc, around, other, state)?;
    }
    Ok(state)
}

#[tactic(auto, unfolding(check_state::specs::Views::around))]
fn with_heads<'a>(heads: &'a Names<Meaning>, around: &Around<'a>) -> Around<'a>
    ensures { words.around result ≡ record (words.around around.now) { further = words.names heads.now } }
{
    Around {
        further: Some(heads),
        ..*around
    }
}

/// The outcome of the second try.
fn retried<D, T: Tries<D>>(
    tries: &T,
    alloc: Global,
    around: &Around<'_>,
    one: &D,
    others: &[D],
) -> Result<(), CheckFault>
    requires { T.ask tries.now }
    ensures { GivesOnly (λ _. tt) (again.outcome_alone (again.retried T.named (T.rule tries.now) (words.around around.now) one.now others.now (T.before tries.now))) result }
{
    let state = behind_all(tries, alloc, around, one, others)?;
    let heads = head_names(alloc, state)?;
    let mut state = begun(tries)?;
    let near = *around;
    let around = with_heads(&heads, &near);
    tries.declare(one, &around, &mut state)
}

/// The fault of the declaration in hand before those further on, once it has one: that of the second try, if that has one too.
pub fn second_fault<D, T: Tries<D>>(
    tries: &T,
    alloc: Global,
    around: &Around<'_>,
    one: &D,
    further: &[D],
    first: CheckFault,
) -> CheckFault
    requires asked { T.ask tries.now }
    requires found { first ≢ Memory → T.rule tries.now (words.around around.now) one.now (T.before tries.now) ≡ Err (fault first) }
    ensures { result ≢ Memory → spec.before_others T.named (T.rule tries.now) (words.around around.now) one.now further.now (T.before tries.now) ≡ Err (fault result) }
{
    match first {
        CheckFault::Memory => CheckFault::Memory,
        CheckFault::At(cause, place) => match retried(tries, alloc, around, one, further) {
            Ok(()) => CheckFault::At(cause, place),
            Err(second) => second,
        },
    }
}
