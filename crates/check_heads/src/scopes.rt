//! The innermost scope: names that are taken in it, and the heads in it.
ghost use Rattle.std.specs.Prelude.{◌≡◌, IfOk, OnOk};
ghost use Rattle.check_faces.specs.Ahead.{later};
ghost use Rattle.check_scopes.specs.Scopes.{over};
ghost use Rattle.check_rules.specs.Programs as spec;
ghost use Rattle.check_state.specs.Views as words;
ghost use Rattle.check_heads.specs.Again as again;

use check_scopes::Names;
use check_state::{Meaning, State};
use mesa_base::{Identifier, OutOfMemory};
use std::alloc::Global;

fn take(names: &[Identifier], alloc: Global, scope: &mut Names<Meaning>) -> Result<(), OutOfMemory>
    ensures { OnOk result (words.names scope.new ≡ over (words.names scope.old) (later names.now)) }
{
    for name in names {
        scope.declare_first(alloc, name.name.bytes(), Meaning::Later)?;
    }
    Ok(())
}

/// Passes over a declaration of these names that has a fault: they are taken, and not visible.
pub(crate) fn pass_over(
    names: &[Identifier],
    alloc: Global,
    state: &mut State,
) -> Result<(), OutOfMemory>
    ensures { OnOk result (words.state state.new ≡ spec.passed_over names.now (words.state state.old)) }
{
    let mut scope = state.swap(alloc, Names::new(alloc))?;
    take(names, alloc, &mut scope)?;
    state.swap(alloc, scope)?;
    Ok(())
}

/// The names, and this one if it is a head's.
#[tactic(auto, unfolding(check_state::specs::Views::names))]
fn and_head(
    name: &[u8],
    alloc: Global,
    meaning: &Meaning,
    heads: &mut Names<Meaning>,
) -> Result<(), OutOfMemory>
    ensures { OnOk result (words.names heads.new ≡ again.and_head name.now (words.meaning meaning.now) (words.names heads.old)) }
{
    match meaning {
        Meaning::Procedure(_, _) | Meaning::Signal(_, _) => {
            heads.declare(alloc, name, meaning.share(alloc)?)
        }
        _ => Ok(()),
    }
}

/// Of these names those alone that mean a procedure, signal or error.
fn heads_alone(alloc: Global, names: Names<Meaning>) -> Result<Names<Meaning>, OutOfMemory>
    ensures { IfOk result (λ heads. words.names heads ≡ again.heads_among (words.names names)) }
{
    let mut rest = names.into_index()?;
    let mut heads = Names::new(alloc);
    while let Some((name, meaning)) = rest.pop_first() {
        and_head(name.as_slice(), alloc, &meaning, &mut heads)?;
    }
    Ok(heads)
}

/// The procedures, signals and errors of the innermost scope.
pub(crate) fn head_names(alloc: Global, mut state: State) -> Result<Names<Meaning>, OutOfMemory>
    ensures { IfOk result (λ heads. words.names heads ≡ again.heads_in (words.state state)) }
{
    let names = state.swap(alloc, Names::new(alloc))?;
    heads_alone(alloc, names)
}
