//! The faults of wanted items.

ghost use Rattle.std.specs.Prelude.{◌≡◌, IfOk, slice_get};
ghost use Rattle.std.specs.Option.{option_copied};
ghost use Rattle.config_rules.specs.Exporters.{is_given, is_named};
ghost use Rattle.loader_rules.specs.LoadFaults.{item_of};
ghost use Rattle.load_checks.specs.Choosing.{first_stamp, missing_by, stamp_by, stamp_in};
ghost use Rattle.load_checks.specs.Givers.{giver_shown, name_of};

use crate::exporters::Exporter;
use crate::offering::export_of;
use interface_records::{Wanted, WantedItem};
use loader_rules::LoadFault;
use mesa_base::{Decimal, List, Name, OutOfMemory, Path, Stamp};
use mesa_types::{Export, Face, Pair};
use object_files::Image;
use std::alloc::Global;

/// The item as a fault names it.
pub fn item_of(alloc: Global, wanted: &Wanted) -> Result<WantedItem, OutOfMemory>
    ensures { IfOk result (λ item. item ≡ item_of wanted.now) }
{
    Ok(WantedItem {
        at: List::new(alloc),
        face: wanted.face.copy(alloc)?,
        stamp: wanted.stamp,
        item: wanted.item.name.copy(alloc)?,
    })
}

fn name_of(alloc: Global, number: u32) -> Result<Name, OutOfMemory>
    ensures { IfOk result (λ name. name ≡ name_of number) }
{
    let mut bytes = List::of(alloc, b'I')?;
    bytes.extend_from_slice(Decimal::of(number as u64 + 1).as_bytes())?;
    match Name::new(alloc, bytes.as_slice())? {
        Some(name) => Ok(name),
        None => unreachable!(),
    }
}

fn path_of(alloc: Global, exporter: &Exporter) -> Result<Path, OutOfMemory>
    ensures { IfOk result (λ path. path ≡ (giver_shown exporter.now).path) }
{
    let mut path = List::of(alloc, name_of(alloc, exporter.image)?)?;
    for name in exporter.path.as_slice() {
        path.push(name.copy(alloc)?)?;
    }
    Ok(path)
}

/// That two offer the item.
pub fn twice(
    alloc: Global,
    number: u32,
    wanted: &Wanted,
    first: &Exporter,
    second: &Exporter,
) -> Result<LoadFault, OutOfMemory>
    ensures { IfOk result (λ fault. fault ≡ LoadFault.Twice number (item_of wanted.now) (giver_shown first.now).path (giver_shown second.now).path) }
{
    let item = item_of(alloc, wanted)?;
    let first = path_of(alloc, first)?;
    let second = path_of(alloc, second)?;
    Ok(LoadFault::Twice(number, item, first, second))
}

#[tactic(auto, unfolding(config_rules::specs::Exporters::is_named))]
fn is_named(face: &Face, pair: &Pair, name: &Name) -> bool
    ensures { result ≡ is_named name.now (slice_get face.now.items pair.now.item) }
{
    match face.items.get(pair.item as usize) {
        Some(item) => item.name.bytes() == name.bytes(),
        None => false,
    }
}

fn is_given(export: &Export, name: &Name) -> bool
    ensures { result ≡ is_given name.now export.now.face export.now.given }
{
    for pair in export.given.as_slice() {
        if is_named(&export.face, pair, name) {
            return true;
        }
    }
    false
}

// The stamp of an export under this record, if it gives an item of the name that is wanted.
#[tactic(auto, unfolding(crate::specs::Choosing::stamp_by))]
fn stamp_by(wanted: &Wanted, record_name: &Name, export: Option<&Export>) -> Option<Stamp>
    ensures { result ≡ stamp_by wanted.now record_name.now (option_copied export.entry) }
{
    match export {
        Some(export)
            if record_name.bytes() == wanted.face.bytes() && is_given(export, &wanted.item.name) =>
            { Some(export.face.stamp) }
        _ => None,
    }
}

fn stamp_in(image: &Image, wanted: &Wanted) -> Option<Stamp>
    ensures { result ≡ stamp_in image.now wanted.now image.now.offered }
{
    for offer in image.offered.as_slice() {
        if let Some(stamp) = stamp_by(wanted, &offer.name, export_of(image, offer)) {
            return Some(stamp);
        }
    }
    None
}

// The stamp of the first who offers an item of that name.
fn first_stamp(images: &[Image], wanted: &Wanted) -> Option<Stamp>
    ensures { result ≡ first_stamp wanted.now images.now }
{
    for image in images {
        if let Some(stamp) = stamp_in(image, wanted) {
            return Some(stamp);
        }
    }
    None
}

/// That nobody of the images before offers the item under its stamp.
pub fn missing(
    alloc: Global,
    before: &[Image],
    number: u32,
    wanted: &Wanted,
) -> Result<LoadFault, OutOfMemory>
    ensures { IfOk result (λ fault. fault ≡ missing_by number wanted.now (first_stamp wanted.now before.now)) }
{
    let item = item_of(alloc, wanted)?;
    match first_stamp(before, wanted) {
        Some(found) => Ok(LoadFault::OtherStamp(number, item, wanted.stamp, found)),
        None => Ok(LoadFault::NoExporter(number, item)),
    }
}
