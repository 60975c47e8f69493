//! What an image offers: the exports of the outermost configuration.

ghost use Rattle.std.specs.Prelude.{◌≡◌, [], ◌++◌, map, IfOk, OnOk};
ghost use Rattle.config_rules.specs.InOrder.{IsInward};
ghost use Rattle.link_tables.specs.Gathered.{TakesIn, TakesEntry, Gathers, under, offer_by, offers_under, offers_by};
ghost use Rattle.link_tables.specs.Linked.{offers};

use check_scopes::Index;
use config_rules::{Exporter, Outgoing, RecordPair, Tree};
use config_tree::outgoing;
use mesa_base::{List, Name, OutOfMemory};
use object_files::{Offer, Offers};
use std::alloc::Global;

type Exporters = List<Exporter>;

// Puts the exporter behind those of the record.
fn note(
    alloc: Global,
    index: &mut Index<Exporters>,
    record_name: &Name,
    exporter: Exporter,
) -> Result<(), OutOfMemory>
    ensures { OnOk result (TakesIn index.old index.new record_name.now exporter) }
{
    let key = Vec::from_slice(alloc, record_name.bytes())?;
    if let Some(exporters) = index.index.get_mut(&key) {
        exporters.push(exporter)?;
        return Ok(());
    }
    index.declare(alloc, record_name.bytes(), List::of(alloc, exporter)?)
}

fn note_entry(
    alloc: Global,
    index: &mut Index<Exporters>,
    entry: &Outgoing,
) -> Result<(), OutOfMemory>
    ensures { OnOk result (TakesEntry index.old index.new entry.now) }
{
    if entry.scope != 0 {
        return Ok(());
    }
    note(alloc, index, &entry.record_name, entry.exporter)
}

// Under each record of the outermost configuration those who export to it.
fn gathered(alloc: Global, entries: &[Outgoing]) -> Result<Index<Exporters>, OutOfMemory>
    ensures { IfOk result (λ index. Gathers index entries.now) }
{
    let mut index = Index::new(alloc);
    for entry in entries {
        note_entry(alloc, &mut index, entry)?;
    }
    Ok(index)
}

fn put_exporters(
    alloc: Global,
    record_name: &Name,
    exporters: &[Exporter],
    offers: &mut Offers,
) -> Result<(), OutOfMemory>
    ensures { OnOk result (offers.new ≡ offers.old ++ map (offer_by record_name.now) exporters.now) }
{
    for exporter in exporters {
        let name = record_name.copy(alloc)?;
        offers.push(Offer {
            name,
            instance: exporter.instance,
            export: exporter.export,
        })?;
    }
    Ok(())
}

fn put_record(
    alloc: Global,
    index: &Index<Exporters>,
    pair: &RecordPair,
    offers: &mut Offers,
) -> Result<(), OutOfMemory>
    ensures { OnOk result (offers.new ≡ offers.old ++ offers_under (under index.now) pair.now) }
{
    match index.get(pair.inside.bytes()) {
        Some(exporters) => put_exporters(alloc, &pair.inside, exporters.as_slice(), offers),
        None => Ok(()),
    }
}

fn all_under(
    alloc: Global,
    index: &Index<Exporters>,
    pairs: &[RecordPair],
) -> Result<Offers, OutOfMemory>
    ensures { IfOk result (λ made. made ≡ offers_by (under index.now) pairs.now) }
{
    let mut offers = List::new(alloc);
    for pair in pairs {
        put_record(alloc, index, pair, &mut offers)?;
    }
    Ok(offers)
}

/// Record by record what the outermost configuration exports, under each the exporters in tree order.
pub fn offers_of(alloc: Global, tree: &Tree) -> Result<Offers, OutOfMemory>
    requires { IsInward tree.now }
    ensures { IfOk result (λ made. made ≡ offers tree.now) }
{
    let entries = outgoing(alloc, tree)?;
    let index = gathered(alloc, entries.as_slice())?;
    match tree.scopes.get(0) {
        Some(outermost) => all_under(alloc, &index, outermost.exports.as_slice()),
        None => Ok(List::new(alloc)),
    }
}
