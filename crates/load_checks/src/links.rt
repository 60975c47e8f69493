//! The links that stand for the wanted items of an image.

ghost use Rattle.std.specs.Prelude.{◌≡◌, IfOk, length};
ghost use Rattle.loader_rules.specs.Wanted.{entry_number};
ghost use Rattle.load_checks.specs.Choosing.{choice_shown, choices_shown, link_by, links_by};
ghost use Rattle.load_checks.specs.Wanting.{IsIndexed, entries_shown};

use crate::exporters::Exporter;
use crate::wanting::{Wanting, entry_number};
use interface_records::Wanted;
use mesa_base::{List, OutOfMemory};
use object_files::{Link, LinkTable};
use std::alloc::Global;

// So many items that 32 bits can't number them count as want of memory.
fn link_to_wanted(alloc: Global, wanting: &Wanting, wanted: &Wanted) -> Result<Link, OutOfMemory>
    requires { IsIndexed wanting.now }
    ensures { IfOk result (λ link. link ≡ Link.Wanted (entry_number (entries_shown wanting.now.entries.items) wanted.now)) }
{
    match u32::try_from(entry_number(alloc, wanting, wanted)?) {
        Ok(number) => Ok(Link::Wanted(number)),
        Err(_) => Err(OutOfMemory),
    }
}

fn link_by(
    alloc: Global,
    wanting: &Wanting,
    wanted: &Wanted,
    chosen: &Option<Exporter>,
) -> Result<Link, OutOfMemory>
    requires { IsIndexed wanting.now }
    ensures { IfOk result (λ link. link ≡ link_by (entries_shown wanting.now.entries.items) wanted.now (choice_shown chosen.now)) }
{
    match chosen {
        None => link_to_wanted(alloc, wanting, wanted),
        Some(exporter) => Ok(Link::To {
            instance: exporter.instance,
            number: exporter.number,
        }),
    }
}

/// The link for each wanted item, where this is still wanted and these are chosen.
pub fn links_of(
    alloc: Global,
    wanting: &Wanting,
    wanteds: &[Wanted],
    chosen: &[Option<Exporter>],
) -> Result<LinkTable, OutOfMemory>
    requires indexed { IsIndexed wanting.now }
    requires long { length chosen.now ≡ length wanteds.now }
    ensures { IfOk result (λ links. links ≡ links_by (entries_shown wanting.now.entries.items) wanteds.now (choices_shown chosen.now)) }
{
    let mut links = List::new(alloc);
    for (at, wanted) in wanteds.iter().enumerate() {
        links.push(link_by(alloc, wanting, wanted, &chosen[at])?)?;
    }
    Ok(links)
}
