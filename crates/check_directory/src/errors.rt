//! The errors that are declared before each module.
ghost use Rattle.std.specs.Prelude.{◌≡◌, [], ◌∷◌, IfOk, OnOk};
ghost use Rattle.check_scopes.specs.Scopes.{over};
ghost use Rattle.check_state.specs.Views as view;
ghost use Rattle.check_rules.specs.Directory as spec;
ghost use Rattle.interface_records.specs.PlainTypes.{plain_item};
ghost use Rattle.mesa_base.specs.Name.{IsName};

use check_scopes::Names;
use check_state::Meaning;
use mesa_base::{List, Name, OutOfMemory, Shared};
use mesa_types::{Item, ItemKind, Raised};
use std::alloc::Global;

/// An error that takes and gives nothing.
fn bare_error(text: &[u8], alloc: Global) -> Result<Item, OutOfMemory>
    requires { IsName text.now }
    ensures { IfOk result (λ item. plain_item item ≡ spec.predeclared_error text.now) }
{
    match Name::new(alloc, text)? {
        None => unreachable!(),
        Some(name) => Ok(Item {
            kind: ItemKind::Error,
            name,
            takes: List::new(alloc),
            gives: List::new(alloc),
        }),
    }
}

/// The error of this name means this, unless the name means something.
fn predeclare(
    text: &[u8],
    alloc: Global,
    raised: Raised,
    names: &mut Names<Meaning>,
) -> Result<(), OutOfMemory>
    requires { IsName text.now }
    ensures { OnOk result (view.names names.new ≡ over (view.names names.old) (spec.first_entry (spec.predeclared_entry text.now raised ∷ []))) }
{
    let head = Shared::new(alloc, bare_error(text, alloc)?)?;
    names.declare_first(alloc, text, Meaning::Signal(raised, head))
}

/// The errors of the language.
pub fn predeclared(alloc: Global) -> Result<Names<Meaning>, OutOfMemory>
    ensures { IfOk result (λ names. view.names names ≡ spec.predeclared) }
{
    let mut names = Names::new(alloc);
    predeclare(b"BoundsFault", alloc, Raised::TheBoundsFault, &mut names)?;
    predeclare(b"ZeroDivisor", alloc, Raised::TheZeroDivisor, &mut names)?;
    Ok(names)
}
