//! The first fault of an image, or who gives each of its wanted items.

ghost use Rattle.std.specs.Prelude.{◌≡◌, ◌≢◌, ◌++◌, [], Some, IfErr, IfOk, OnOk, map};
ghost use Rattle.std.specs.List.{list_any};
ghost use Rattle.loader_rules.specs.LoadFaults.{bad_items, faults_in, first_of, is_nested, is_odd, item_of, many, nested, odd};
ghost use Rattle.load_checks.specs.Choosing.{IsDiffering, choice_of, choices_shown};
ghost use Rattle.load_checks.specs.Turns.{HasRoom, IsSeen, part_of};

use crate::choosing::{Choices, choose_all, is_built_in};
use crate::exporters::Exporter;
use crate::faces::least_differing;
use crate::faults::item_of;
use crate::offering::export_of;
use crate::turn::{Seen, Turn};
use interface_records::{Wanted, Wanteds};
use loader_rules::LoadFault;
use mesa_base::limits::{CONFIGURATION_DEPTH, INSTANCES};
use mesa_base::{Name, OutOfMemory};
use object_files::{Image, Instance, Offer};
use object_rules::limits::IMAGE_MODULES;
use std::alloc::Global;

fn has_nested(instances: &[Instance]) -> bool
    ensures { result ≡ list_any is_nested instances.now }
{
    instances
        .iter()
        .any(|instance| instance.path.len() >= CONFIGURATION_DEPTH)
}

fn check_paths(turn: &Turn, seen: &Seen) -> Result<(), LoadFault>
    requires { IsSeen turn.now.before.now seen.now }
    ensures ok { OnOk result (nested (part_of turn.now) ≡ []) }
    ensures err { IfErr result (λ e. first_of (nested (part_of turn.now)) ≡ Some e) }
{
    if has_nested(turn.image.instances.as_slice()) {
        return Err(LoadFault::TooNested(seen.images));
    }
    Ok(())
}

fn check_counts(turn: &Turn, seen: &Seen) -> Result<(), LoadFault>
    requires { IsSeen turn.now.before.now seen.now }
    ensures ok { OnOk result (many (part_of turn.now) ≡ []) }
    ensures room { OnOk result (HasRoom (part_of turn.now)) }
    ensures err { IfErr result (λ e. first_of (many (part_of turn.now)) ≡ Some e) }
{
    let instances = turn.image.instances.len();
    let modules = turn.image.modules.len();
    if instances > INSTANCES - seen.instances as usize
        || modules > (IMAGE_MODULES - seen.modules) as usize
    {
        return Err(LoadFault::TooManyInstances(seen.images));
    }
    Ok(())
}

fn is_odd(image: &Image, offer: &Offer) -> bool
    ensures { result ≡ is_odd image.now offer.now }
{
    if is_built_in(&offer.name) {
        return true;
    }
    match export_of(image, offer) {
        Some(export) => offer.name.bytes() != export.face.name.bytes(),
        None => true,
    }
}

fn odd_record(alloc: Global, number: u32, name: &Name) -> LoadFault
    ensures { result ≢ LoadFault.Memory → result ≡ LoadFault.OddRecord number name.now }
{
    match name.copy(alloc) {
        Ok(name) => LoadFault::OddRecord(number, name),
        Err(OutOfMemory) => LoadFault::Memory,
    }
}

fn check_records(alloc: Global, turn: &Turn, seen: &Seen) -> Result<(), LoadFault>
    requires { IsSeen turn.now.before.now seen.now }
    ensures ok { OnOk result (odd (part_of turn.now) ≡ []) }
    ensures err { IfErr result (λ e. e ≢ LoadFault.Memory → first_of (odd (part_of turn.now)) ≡ Some e) }
{
    for offer in turn.image.offered.as_slice() {
        if is_odd(turn.image, offer) {
            return Err(odd_record(alloc, seen.images, &offer.name));
        }
    }
    Ok(())
}

fn face_differs(alloc: Global, number: u32, wanted: &Wanted) -> LoadFault
    ensures { result ≢ LoadFault.Memory → result ≡ LoadFault.FaceDiffers number (item_of wanted.now) }
{
    match item_of(alloc, wanted) {
        Ok(item) => LoadFault::FaceDiffers(number, item),
        Err(OutOfMemory) => LoadFault::Memory,
    }
}

fn differing(alloc: Global, number: u32, wanteds: &Wanteds, least: usize) -> LoadFault
    ensures { result ≢ LoadFault.Memory → IsDiffering number wanteds.now least result }
{
    match wanteds.get(least) {
        Some(wanted) => face_differs(alloc, number, wanted),
        None => LoadFault::Memory,
    }
}

fn chosen_items<'a>(
    alloc: Global,
    turn: &Turn<'a>,
    seen: &Seen<'a>,
) -> Result<Vec<Option<Exporter<'a>>>, LoadFault>
    requires { IsSeen turn.now.before.now seen.now }
    ensures none { OnOk result (bad_items (part_of turn.now) ≡ []) }
    ensures chosen { IfOk result (λ chosen. choices_shown chosen.items ≡ map (choice_of (part_of turn.now)) turn.now.image.now.wanted) }
    ensures err { IfErr result (λ e. e ≢ LoadFault.Memory → first_of (bad_items (part_of turn.now)) ≡ Some e) }
{
    let choices = choose_all(alloc, turn, seen)?;
    let least = least_differing(alloc, turn.image, choices.chosen.as_slice())?;
    if least < choices.chosen.len() {
        return Err(differing(alloc, seen.images, &turn.image.wanted, least));
    }
    let Choices { chosen, fault } = choices;
    match fault {
        Some(fault) => Err(fault),
        None => Ok(chosen),
    }
}

fn check_whole(alloc: Global, turn: &Turn, seen: &Seen) -> Result<(), LoadFault>
    requires { IsSeen turn.now.before.now seen.now }
    ensures ok { OnOk result (nested (part_of turn.now) ++ (many (part_of turn.now) ++ odd (part_of turn.now)) ≡ []) }
    ensures room { OnOk result (HasRoom (part_of turn.now)) }
    ensures err { IfErr result (λ e. e ≢ LoadFault.Memory
        → first_of (nested (part_of turn.now) ++ (many (part_of turn.now) ++ odd (part_of turn.now))) ≡ Some e) }
{
    check_paths(turn, seen)?;
    check_counts(turn, seen)?;
    check_records(alloc, turn, seen)
}

/// What is chosen for each wanted item of the image whose turn it is; or its first fault.
pub fn checked<'a>(
    alloc: Global,
    turn: &Turn<'a>,
    seen: &Seen<'a>,
) -> Result<Vec<Option<Exporter<'a>>>, LoadFault>
    requires { IsSeen turn.now.before.now seen.now }
    ensures none { OnOk result (faults_in (part_of turn.now) ≡ []) }
    ensures room { OnOk result (HasRoom (part_of turn.now)) }
    ensures chosen { IfOk result (λ chosen. choices_shown chosen.items ≡ map (choice_of (part_of turn.now)) turn.now.image.now.wanted) }
    ensures err { IfErr result (λ e. e ≢ LoadFault.Memory → first_of (faults_in (part_of turn.now)) ≡ Some e) }
{
    check_whole(alloc, turn, seen)?;
    chosen_items(alloc, turn, seen)
}
