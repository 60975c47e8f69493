//! The index from records and items to their exporters.

ghost use Rattle.std.specs.Prelude.{◌≡◌, [], OnOk, IfOk, slice_get};
ghost use Rattle.config_rules.specs.Outgoing.{export_of};
ghost use Rattle.import_binder.specs.Index.{put, indexed, listed_under, mention, mentions_of, mentions_by, mentions_in};

use crate::key::ExporterKey;
use config_rules::{Exporter, Outgoing, Tree};
use indexmap::IndexMap;
use mesa_base::{List, OutOfMemory};
use mesa_types::{Export, Face, Item, Pair};
use std::alloc::Global;

/// The exporters of an item to a record, in tree order.
pub type Exporters = List<Exporter>;

/// For each record of a scope and each name of an item that is exported to it those who export it, in tree order. Contracts see it
/// as a list of pairs.
pub type ExporterIndex = IndexMap<ExporterKey, Exporters>;

// Puts an exporter behind those of the key; a new key goes last.
fn note(
    alloc: Global,
    index: &mut ExporterIndex,
    key: ExporterKey,
    exporter: Exporter,
) -> Result<(), OutOfMemory>
    ensures { OnOk result (index.new.entries ≡ put index.old.entries key exporter) }
{
    if let Some(exporters) = index.get_mut(&key) {
        exporters.push(exporter)?;
        return Ok(());
    }
    let exporters = List::of(alloc, exporter)?;
    index.insert(key, exporters)?;
    Ok(())
}

fn note_item(
    alloc: Global,
    index: &mut ExporterIndex,
    entry: &Outgoing,
    item: &Item,
) -> Result<(), OutOfMemory>
    ensures { OnOk result (index.new.entries ≡ indexed index.old.entries (mention entry.now (Some item.now))) }
{
    let key = ExporterKey {
        scope: entry.scope,
        record_name: entry.record_name.copy(alloc)?,
        item: item.name.copy(alloc)?,
    };
    note(alloc, index, key, entry.exporter)
}

fn note_pair(
    alloc: Global,
    index: &mut ExporterIndex,
    entry: &Outgoing,
    face: &Face,
    pair: &Pair,
) -> Result<(), OutOfMemory>
    ensures { OnOk result (index.new.entries ≡ indexed index.old.entries (mention entry.now (slice_get face.now.items pair.now.item))) }
{
    match face.items.get(pair.item as usize) {
        Some(item) => note_item(alloc, index, entry, item),
        None => Ok(()),
    }
}

// Each item that the export gives.
fn note_given(
    alloc: Global,
    index: &mut ExporterIndex,
    entry: &Outgoing,
    export: &Export,
) -> Result<(), OutOfMemory>
    ensures { OnOk result (index.new.entries ≡ indexed index.old.entries (mentions_of entry.now export.now.face export.now.given)) }
{
    for pair in export.given.as_slice() {
        note_pair(alloc, index, entry, &export.face, pair)?;
    }
    Ok(())
}

fn note_entry(
    alloc: Global,
    index: &mut ExporterIndex,
    tree: &Tree,
    entry: &Outgoing,
) -> Result<(), OutOfMemory>
    ensures { OnOk result (index.new.entries ≡ indexed index.old.entries (mentions_by entry.now (export_of tree.now entry.now.exporter))) }
{
    let Some(instance) = tree.instances.get(entry.exporter.instance as usize) else {
        return Ok(());
    };
    let Some(export) = instance.shape.exports.get(entry.exporter.export as usize) else {
        return Ok(());
    };
    note_given(alloc, index, entry, export)
}

/// The index of these entries, in their order.
pub fn index_of(
    alloc: Global,
    tree: &Tree,
    entries: &[Outgoing],
) -> Result<ExporterIndex, OutOfMemory>
    ensures { IfOk result (λ index. index.entries ≡ indexed [] (mentions_in tree.now entries.now)) }
{
    let mut index = IndexMap::new(alloc);
    for entry in entries {
        note_entry(alloc, &mut index, tree, entry)?;
    }
    Ok(index)
}

/// Those that stand under the key.
pub fn exporters_under<'a>(index: &'a ExporterIndex, key: &ExporterKey) -> &'a [Exporter]
    ensures { result.now ≡ listed_under key.now index.now.entries }
{
    match index.get(key) {
        Some(exporters) => exporters.as_slice(),
        None => &[],
    }
}
