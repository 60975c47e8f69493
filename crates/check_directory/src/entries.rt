//! All that an interface offers.
ghost use Rattle.std.specs.Prelude.{◌≡◌, IfOk};
ghost use Rattle.check_state.specs.Views as view;
ghost use Rattle.check_rules.specs.Directory as spec;
ghost use Rattle.interface_records.specs.PlainTypes.{plain_interface};

use crate::elements::{in_constants, in_items, in_types};
use crate::interface_names::{constants, items, types};
use check_scopes::Names;
use check_state::Meaning;
use interface_records::Interface;
use mesa_base::OutOfMemory;
use std::alloc::Global;

/// The names of an interface, which is the import of this number or none. Its own entries come before the elements of its
/// enumerations, and of two elements the first in the file's order.
pub fn entries(
    interface: &Interface,
    alloc: Global,
    import: Option<u32>,
) -> Result<Names<Meaning>, OutOfMemory>
    ensures { IfOk result (λ names. view.names names ≡ spec.first_entry (spec.entries import (plain_interface interface.now))) }
{
    let mut names = Names::new(alloc);
    items(interface.face.items.as_slice(), alloc, import, &mut names)?;
    constants(interface.constants.as_slice(), alloc, &mut names)?;
    types(interface.types.as_slice(), alloc, &mut names)?;
    in_items(
        interface.face.items.as_slice(),
        alloc,
        interface,
        &mut names,
    )?;
    in_constants(interface.constants.as_slice(), alloc, interface, &mut names)?;
    in_types(interface.types.as_slice(), alloc, interface, &mut names)?;
    Ok(names)
}
