//! What stands for each wanted item of several images.

ghost use Rattle.std.specs.Prelude.{◌≡◌, ◌≢◌, ◌≤◌, [], ◌∷◌, ◌++◌, IfErr, IfOk, IsOk, OnOk, Err, Some, length, map};
ghost use Rattle.loader_rules.specs.declared.fault.LoadFault.{LoadFault as Fault};
ghost use Rattle.loader_rules.specs.declared.limits.TheConstants.{MOST_IMAGES};
ghost use Rattle.loader_rules.specs.LoadFaults.{HasLoadFault, faults_in, first_of, load_faults};
ghost use Rattle.loader_rules.specs.Parts.{parts};
ghost use Rattle.load_checks.specs.Links.{AreResolved, wanted_links};
ghost use Rattle.load_checks.specs.Turns.{after, part_of, IsSeen};
ghost use Rattle.load_checks.specs.Wanting.{IsIndexed, entries_shown};

use crate::links::links_of;
use crate::several::take_in;
use crate::turn::{Seen, Turn, nothing_seen};
use crate::wanting::{Wanting, copied, still_wanted};
use interface_records::Wanteds;
use loader_rules::{Images, LoadFault};
use mesa_base::List;
use object_files::{Image, LinkTables};
use std::alloc::Global;

/// What stands in the loaded image for the wanted items of each image.
pub struct Resolved {
    /// What is still wanted: items of the built-in interface, each once.
    pub wanted: Wanteds,
    /// For each image, and each of its wanted items by number, the link that stands for it.
    pub links: LinkTables,
}

// The image whose turn it is, taken in, and its links.
fn take_turn<'a>(
    alloc: Global,
    wanting: &Wanting,
    turn: &Turn<'a>,
    seen: &mut Seen<'a>,
    links: &mut LinkTables,
) -> Result<(), LoadFault>
    requires indexed { IsIndexed wanting.now }
    requires seen { IsSeen turn.now.before.now seen.old }
    requires few { length turn.now.before.now ≤ 15 }
    ensures seen { OnOk result (IsSeen (after (part_of turn.now)) seen.new) }
    ensures none { OnOk result (faults_in (part_of turn.now) ≡ []) }
    ensures links { OnOk result (links.new ≡ links.old ++ wanted_links (entries_shown wanting.now.entries.items) (part_of turn.now) ∷ []) }
    ensures err { IfErr result (λ e. e ≢ LoadFault.Memory → first_of (faults_in (part_of turn.now)) ≡ Some e) }
{
    let chosen = take_in(alloc, turn, seen)?;
    let wanteds = turn.image.wanted.as_slice();
    let table = links_of(alloc, wanting, wanteds, chosen.as_slice())?;
    links.push(table)?;
    Ok(())
}

fn tables_of(alloc: Global, wanting: &Wanting, images: &[Image]) -> Result<LinkTables, LoadFault>
    requires indexed { IsIndexed wanting.now }
    requires few { length images.now ≤ MOST_IMAGES }
    ensures none { OnOk result (load_faults images.now ≡ []) }
    ensures links { IfOk result (λ links. links ≡ map (wanted_links (entries_shown wanting.now.entries.items)) (parts images.now)) }
    ensures err { IfErr result (λ e. e ≢ LoadFault.Memory → HasLoadFault images.now e) }
{
    let mut seen = nothing_seen(alloc);
    let mut links = List::new(alloc);
    for (at, image) in images.iter().enumerate() {
        let turn = Turn {
            before: &images[..at],
            image,
        };
        take_turn(alloc, wanting, &turn, &mut seen, &mut links)?;
    }
    Ok(links)
}

fn found(alloc: Global, images: &Images) -> Result<Resolved, LoadFault>
    requires { length images.now.items ≤ MOST_IMAGES }
    ensures found { IfOk result (AreResolved images.now.items) }
    ensures fault { IfErr result (λ e. e ≢ LoadFault.Memory → HasLoadFault images.now.items e) }
{
    let wanting = still_wanted(alloc, images.as_slice())?;
    let links = tables_of(alloc, &wanting, images.as_slice())?;
    let wanted = copied(alloc, wanting.entries.as_slice())?;
    Ok(Resolved { wanted, links })
}

/// What stands for each wanted item of at most 16 images; or the first fault of the first image that has one.
pub fn resolve(alloc: Global, images: &Images) -> Result<Resolved, LoadFault>
    requires { length images.now.items ≤ MOST_IMAGES }
    ensures found { IfOk result (AreResolved images.now.items) }
    ensures fault { IfErr result (λ e. e ≢ LoadFault.Memory → HasLoadFault images.now.items e) }
    ensures only { load_faults images.now.items ≡ [] → result ≢ Err LoadFault.Memory → IsOk result }
    ensures first { (e : Fault) → HasLoadFault images.now.items e → result ≢ Err LoadFault.Memory → result ≡ Err e }
{
    found(alloc, images)
}
