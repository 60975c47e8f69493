//! One name more that an interface offers.
ghost use Rattle.std.specs.Prelude.{◌≡◌, [], ◌∷◌, OnOk};
ghost use Rattle.check_scopes.specs.Scopes.{over};
ghost use Rattle.check_state.specs.Views as view;
ghost use Rattle.check_rules.specs.Directory as spec;

use check_scopes::Names;
use check_state::Meaning;
use mesa_base::{Name, OutOfMemory};
use std::alloc::Global;

/// The name has this meaning unless it has one.
pub fn offer(
    name: &Name,
    alloc: Global,
    meaning: Meaning,
    names: &mut Names<Meaning>,
) -> Result<(), OutOfMemory>
    ensures { OnOk result (view.names names.new ≡ over (view.names names.old) (spec.first_entry (spec.entry name.now (view.meaning meaning) ∷ []))) }
{
    names.declare_first(alloc, name.bytes(), meaning)
}
