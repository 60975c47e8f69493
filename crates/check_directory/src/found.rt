//! The interfaces that a list names.
ghost use Rattle.std.specs.Prelude.{◌≡◌, map, option_map, IfOk};
ghost use Rattle.std.specs.Option.{option_copied};
ghost use Rattle.check_directory.specs.Interfaces.{found};
ghost use Rattle.check_scopes.specs.Shows.{means};
ghost use Rattle.check_rules.specs.Directory as spec;
ghost use Rattle.interface_records.specs.PlainTypes.{plain_interface};

use crate::positions::directory_places;
use check_scopes::Names;
use interface_records::Interface;
use mesa_base::{Identifier, OutOfMemory};
use std::alloc::Global;
use syntax_trees::syntax::DirectoryItem;

/// The interface of the item of this name.
fn interface_of<'a>(
    name: &Identifier,
    known: &Names<u32>,
    interfaces: &'a [Interface],
) -> Option<&'a Interface>
    ensures { option_map plain_interface (option_copied result) ≡ spec.interface_at (map plain_interface interfaces.now) (means known.now name.now.name) }
{
    match known.get(name.name.bytes()) {
        None => None,
        Some(place) => interfaces.get(*place as usize),
    }
}

/// The interfaces that a list names, in its order. A name that is none of the DIRECTORY's is passed over.
pub fn those_of<'a>(
    names: &[Identifier],
    alloc: Global,
    directory: &[DirectoryItem],
    interfaces: &'a [Interface],
) -> Result<Vec<&'a Interface>, OutOfMemory>
    ensures { IfOk result (λ those. found those.items ≡ spec.those_of directory.now (map plain_interface interfaces.now) names.now) }
{
    let known = directory_places(directory, alloc)?;
    let mut those = Vec::new(alloc);
    for name in names {
        if let Some(interface) = interface_of(name, &known, interfaces) {
            those.push(interface)?;
        }
    }
    Ok(those)
}
