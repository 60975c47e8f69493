//! What a USING list leaves of an interface.
ghost use Rattle.std.specs.Prelude.{◌≡◌, IfOk, OnOk};
ghost use Rattle.check_directory.specs.Kept as step;
ghost use Rattle.check_scopes.specs.Scopes.{over};
ghost use Rattle.check_state.specs.Views as view;
ghost use Rattle.check_rules.specs.Directory as spec;

use crate::offers::offer;
use check_scopes::Names;
use check_state::Meaning;
use mesa_base::{Identifier, Identifiers, Name, OutOfMemory};
use std::alloc::Global;

/// A name that means something there means it here too, unless it has a meaning.
#[tactic(auto, unfolding(check_state::specs::Views::names))]
fn keep(
    name: &Name,
    alloc: Global,
    scope: &Names<Meaning>,
    kept: &mut Names<Meaning>,
) -> Result<(), OutOfMemory>
    ensures { OnOk result (view.names kept.new ≡ over (view.names kept.old) (spec.first_entry (step.kept (view.names scope.now) name.now))) }
{
    match scope.get(name.bytes()) {
        None => Ok(()),
        Some(meaning) => offer(name, alloc, meaning.share(alloc)?, kept),
    }
}

/// Those of the names that the list has.
fn those_in(
    names: &[Identifier],
    alloc: Global,
    scope: &Names<Meaning>,
) -> Result<Names<Meaning>, OutOfMemory>
    ensures { IfOk result (λ left. view.names left ≡ spec.restricted (Some names.now) (view.names scope.now)) }
{
    let mut kept = Names::new(alloc);
    for name in names {
        keep(&name.name, alloc, scope, &mut kept)?;
    }
    Ok(kept)
}

/// What is left of an interface's names: all, or those that a USING list has.
pub fn restricted(
    used: &Option<Identifiers>,
    alloc: Global,
    scope: Names<Meaning>,
) -> Result<Names<Meaning>, OutOfMemory>
    ensures { IfOk result (λ left. view.names left ≡ spec.restricted used.now (view.names scope)) }
{
    match used {
        None => Ok(scope),
        Some(names) => those_in(names.as_slice(), alloc, &scope),
    }
}
