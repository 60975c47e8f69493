//! Where names stand in a list.
ghost use Rattle.std.specs.Prelude.{◌≡◌, IfOk};
ghost use Rattle.check_scopes.specs.Shows.{means};
ghost use Rattle.check_rules.specs.Directory as spec;

use check_scopes::Names;
use check_state::next;
use mesa_base::{Identifier, OutOfMemory};
use std::alloc::Global;
use syntax_trees::syntax::DirectoryItem;

/// The place of each name, where it stands first.
pub fn places(names: &[Identifier], alloc: Global) -> Result<Names<u32>, OutOfMemory>
    ensures { IfOk result (λ index. means index ≡ spec.place_in 0 names.now) }
{
    let mut index = Names::new(alloc);
    let mut place = 0u32;
    for name in names {
        index.declare_first(alloc, name.name.bytes(), place)?;
        place = next(place)?;
    }
    Ok(index)
}

/// The place of each name of a DIRECTORY, where it stands first.
pub fn directory_places(
    directory: &[DirectoryItem],
    alloc: Global,
) -> Result<Names<u32>, OutOfMemory>
    ensures { IfOk result (λ index. means index ≡ spec.place_in 0 (spec.names_in directory.now)) }
{
    let mut index = Names::new(alloc);
    let mut place = 0u32;
    for item in directory {
        index.declare_first(alloc, item.name.name.bytes(), place)?;
        place = next(place)?;
    }
    Ok(index)
}
