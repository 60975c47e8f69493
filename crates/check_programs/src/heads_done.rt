//! The scopes of a program once its heads are read: to an initial value, what is not declared before it is hidden, procedures, signals
//! and errors excepted.
ghost use Rattle.std.specs.Prelude.{◌≡◌, Some, IfOk, OnOk};
ghost use Rattle.check_state.specs.Gives.{Gives};
ghost use Rattle.check_state.specs.Views as words;
ghost use Rattle.check_rules.specs.Programs as spec;

use check_rules::CheckFault;
use check_scopes::{Names, Scopes};
use check_state::{Meaning, State};
use mesa_base::OutOfMemory;
use std::alloc::Global;

fn hidden_unless_head(meaning: &Meaning, alloc: Global) -> Result<Meaning, OutOfMemory>
    ensures { IfOk result (λ made. Some (words.meaning made) ≡ spec.hidden_unless_head (Some (words.meaning meaning.now))) }
{
    match meaning {
        Meaning::Procedure(_, _) | Meaning::Signal(_, _) => meaning.share(alloc),
        _ => Ok(Meaning::Later),
    }
}

/// The same names, of which only procedures, signals and errors have a meaning.
#[tactic(auto, unfolding(check_state::specs::Views::names))]
fn heads_alone(names: Names<Meaning>, alloc: Global) -> Result<Names<Meaning>, OutOfMemory>
    ensures { IfOk result (λ alone. words.names alone ≡ spec.heads_alone (words.names names)) }
{
    let mut rest = names.into_index()?;
    let mut alone = Names::new(alloc);
    while let Some((name, meaning)) = rest.pop_first() {
        let meaning = hidden_unless_head(&meaning, alloc)?;
        alone.declare(alloc, name.as_slice(), meaning)?;
    }
    Ok(alone)
}

/// The heads of the innermost scope stand in the place of the scope outside it, if there is one.
#[tactic(auto, unfolding(check_state::specs::Views::scopes, check_state::specs::Views::names))]
fn show_heads(alloc: Global, scopes: &mut Scopes<Meaning>) -> Result<(), OutOfMemory>
    ensures { OnOk result (words.scopes scopes.new ≡ spec.behind_top (words.scopes scopes.old)) }
{
    let Some(mut own) = scopes.leave() else {
        return Ok(());
    };
    match scopes.leave() {
        None => {
            scopes.enter(own)?;
            Ok(())
        }
        Some(_) => {
            let heads = heads_alone(own.share(alloc)?, alloc)?;
            scopes.enter(heads)?;
            scopes.enter(own)?;
            Ok(())
        }
    }
}

/// Names that are not declared yet are hidden, procedures, signals and errors excepted.
#[tactic(auto, unfolding(check_state::specs::Views::state))]
pub fn heads_are_done(alloc: Global, state: &mut State) -> Result<(), CheckFault>
    ensures { Gives (λ _. tt) (spec.heads_are_done (words.state state.old)) result (words.state state.new) }
{
    show_heads(alloc, &mut state.scopes)?;
    Ok(())
}
