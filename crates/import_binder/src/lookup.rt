//! A tree with its indexes, and what an item stands for in it.

ghost use Rattle.std.specs.Prelude.{◌≡◌, IfOk};
ghost use Rattle.config_rules.specs.Resolves.{resolved_at};
ghost use Rattle.import_binder.specs.Choosing.{shown};
ghost use Rattle.import_binder.specs.Looking.{IsIndexed};
ghost use Rattle.import_binder.specs.Places.{place_shown};

use crate::choosing::{Resolution, choose};
use crate::finder::Place;
use crate::index::{ExporterIndex, exporters_under};
use crate::key::ExporterKey;
use config_rules::{Binding, Tree};
use config_tree::OutsideRecords;
use mesa_base::{Name, OutOfMemory};
use mesa_types::Face;
use std::alloc::Global;

/// A tree, with the records that its scopes import and with those who export.
#[derive(Clone, Copy)]
pub struct IndexedTree<'a> {
    pub tree: &'a Tree,
    pub imported: &'a OutsideRecords,
    pub exporters: &'a ExporterIndex,
}

/// What the item of this number and name of an interface stands for, which is looked up there.
pub fn resolve(
    alloc: Global,
    indexed: &IndexedTree,
    face: &Face,
    number: u32,
    name: &Name,
    place: &Option<Place>,
) -> Result<Resolution, OutOfMemory>
    requires { IsIndexed indexed.now }
    ensures { IfOk result (λ r. shown r ≡ resolved_at indexed.now.tree.now face.now name.now (place_shown place.now)) }
{
    let Some(place) = place else {
        return Ok(Resolution::StandsFor(Binding::Left));
    };
    let key = ExporterKey {
        scope: place.scope,
        record_name: place.record_name.copy(alloc)?,
        item: name.copy(alloc)?,
    };
    let exporters = exporters_under(indexed.exporters, &key);
    Ok(choose(indexed.tree, face, number, name, exporters))
}
