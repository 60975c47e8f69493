//! Where exports go.

ghost use Rattle.std.specs.Prelude.{◌≡◌, ◌++◌, suc, slice_get, Some, IfOk, OnOk};
ghost use Rattle.config_rules.specs.Outgoing.{entries_of, outgoing};
ghost use Rattle.config_tree.specs.Outward.{exported, outsides, shown};
ghost use Rattle.config_tree.specs.Going.{entries_from, next_of, outlet_at, outlets_at, step_of};

use crate::outward::{Onward, OutsideRecords, export_records, step_outward};
use config_rules::{Exporter, Outgoing, Tree, TreeInstance};
use mesa_base::{List, Name, OutOfMemory};
use std::alloc::Global;

/// Where exports go: entries in tree order of the instances and then of their exports, the innermost scope first.
pub type Outgoings = List<Outgoing>;

// The entry of the scope around, where the export goes on.
fn outward(
    alloc: Global,
    tree: &Tree,
    records: &OutsideRecords,
    entry: &Outgoing,
) -> Result<Option<Outgoing>, OutOfMemory>
    requires { shown records.now ≡ outsides exported tree.now }
    ensures { IfOk result (λ next. next ≡ next_of entry.now.exporter (step_of tree.now entry.now)) }
{
    match step_outward(tree, records, entry.scope, &entry.record_name) {
        Onward::Goes(around, record_name) => Ok(Some(Outgoing {
            scope: around,
            record_name: record_name.copy(alloc)?,
            exporter: entry.exporter,
        })),
        Onward::Stays => Ok(None),
        Onward::Leaves => Ok(None),
    }
}

// Puts the entry, and those of the scopes that the export reaches outside it, behind the others.
fn put_reached(
    alloc: Global,
    tree: &Tree,
    records: &OutsideRecords,
    most: u64,
    entry: Outgoing,
    entries: &mut Outgoings,
) -> Result<(), OutOfMemory>
    requires { shown records.now ≡ outsides exported tree.now }
    ensures { OnOk result (entries.new ≡ entries.old ++ entries_from most tree.now entry) }
{
    if most == 0 {
        return Ok(());
    }
    let next = outward(alloc, tree, records, &entry)?;
    entries.push(entry)?;
    match next {
        Some(entry) => put_reached(alloc, tree, records, most - 1, entry, entries),
        None => Ok(()),
    }
}

fn put_outlet(
    alloc: Global,
    tree: &Tree,
    records: &OutsideRecords,
    scope: u32,
    record_name: &Name,
    exporter: Exporter,
    entries: &mut Outgoings,
) -> Result<(), OutOfMemory>
    requires { shown records.now ≡ outsides exported tree.now }
    ensures { OnOk result (entries.new ≡ entries.old
        ++ entries_from (suc scope) tree.now (record { scope = scope; record_name = record_name.now; exporter = exporter })) }
{
    let entry = Outgoing {
        scope,
        record_name: record_name.copy(alloc)?,
        exporter,
    };
    put_reached(alloc, tree, records, scope as u64 + 1, entry, entries)
}

fn put_export(
    alloc: Global,
    tree: &Tree,
    records: &OutsideRecords,
    number: u32,
    instance: &TreeInstance,
    at: u32,
    entries: &mut Outgoings,
) -> Result<(), OutOfMemory>
    requires { shown records.now ≡ outsides exported tree.now }
    ensures { OnOk result (entries.new ≡ entries.old
        ++ entries_of tree.now (outlet_at number at instance.now.scope (slice_get instance.now.exports at) (slice_get instance.now.shape.exports at))) }
{
    let Some(record_name) = instance.exports.get(at as usize) else {
        return Ok(());
    };
    if instance.shape.exports.get(at as usize).is_none() {
        return Ok(());
    }
    let exporter = Exporter {
        instance: number,
        export: at,
    };
    let scope = instance.scope;
    put_outlet(alloc, tree, records, scope, record_name, exporter, entries)
}

fn put_exports(
    alloc: Global,
    tree: &Tree,
    records: &OutsideRecords,
    number: u32,
    instance: &TreeInstance,
    entries: &mut Outgoings,
) -> Result<(), OutOfMemory>
    requires { shown records.now ≡ outsides exported tree.now }
    ensures { OnOk result (entries.new ≡ entries.old ++ entries_of tree.now (outlets_at number (Some instance.now))) }
{
    let Ok(count) = u32::try_from(instance.exports.len()) else {
        return Err(OutOfMemory);
    };
    for at in 0..count {
        put_export(alloc, tree, records, number, instance, at, entries)?;
    }
    Ok(())
}

fn put_instance(
    alloc: Global,
    tree: &Tree,
    records: &OutsideRecords,
    number: u32,
    entries: &mut Outgoings,
) -> Result<(), OutOfMemory>
    requires { shown records.now ≡ outsides exported tree.now }
    ensures { OnOk result (entries.new ≡ entries.old ++ entries_of tree.now (outlets_at number (slice_get tree.now.instances number))) }
{
    match tree.instances.get(number as usize) {
        Some(instance) => put_exports(alloc, tree, records, number, instance, entries),
        None => Ok(()),
    }
}

/// In tree order of the instances and then of their exports, one entry for each scope that an export reaches, the innermost
/// first, with the record there. In a tree of scopes in one another it takes n log n steps in the size of tree and answer.
pub fn outgoing(alloc: Global, tree: &Tree) -> Result<Outgoings, OutOfMemory>
    ensures { IfOk result (λ entries. entries ≡ outgoing tree.now) }
{
    let records = export_records(alloc, tree)?;
    let Ok(count) = u32::try_from(tree.instances.len()) else {
        return Err(OutOfMemory);
    };
    let mut entries = List::new(alloc);
    for number in 0..count {
        put_instance(alloc, tree, &records, number, &mut entries)?;
    }
    Ok(entries)
}
