//! What a module gives for the items of the interfaces that it exports.
ghost use Rattle.std.specs.Prelude.{◌≡◌, [], ◌∷◌, map, option_map, slice_get, IfOk};
ghost use Rattle.std.specs.Option.{option_copied};
ghost use Rattle.check_directory.specs.Interfaces.{found};
ghost use Rattle.check_faces.specs.Giving as step;
ghost use Rattle.check_faces.specs.Offers as view;
ghost use Rattle.check_scopes.specs.Shows.{means};
ghost use Rattle.check_state.specs.Gives.{GivesOnly};
ghost use Rattle.check_rules.specs.Directory.{place_in};
ghost use Rattle.check_rules.specs.Parts.{same_types};
ghost use Rattle.interface_records.specs.PlainTypes.{plain_field, plain_interface, plain_item};
ghost use Rattle.check_rules.specs.Programs as spec;

use check_rules::{Cause, CheckFault};
use check_scopes::Names;
use check_state::next;
use held_trees::{both, pushed};
use interface_records::Interface;
use mesa_base::{Identifier, List, Name, OutOfMemory, Shared};
use mesa_types::{Export, Exports, FieldType, Item, ItemKind, Pair, Pairs};
use std::alloc::Global;

/// A public procedure, signal or error: its name, its number among those of the module, and its head.
#[derive(Drop)]
pub struct Offer {
    pub name: Identifier,
    pub number: u32,
    pub item: Shared<Item>,
}

/// The place of each name among what is offered, where it stands first.
fn offer_places(offers: &[Offer], alloc: Global) -> Result<Names<u32>, OutOfMemory>
    ensures { IfOk result (λ index. means index ≡ place_in 0 (view.names offers.now)) }
{
    let mut index = Names::new(alloc);
    let mut place = 0u32;
    for offer in offers {
        index.declare_first(alloc, offer.name.name.bytes(), place)?;
        place = next(place)?;
    }
    Ok(index)
}

fn offer_at(offers: &[Offer], place: u32) -> Option<&Offer>
    ensures { option_copied result ≡ slice_get offers.now place }
{
    offers.get(place as usize)
}

/// The first offer of this name.
fn offer_named<'a>(name: &Name, index: &Names<u32>, offers: &'a [Offer]) -> Option<&'a Offer>
    ensures { means index.now ≡ place_in 0 (view.names offers.now) → option_map view.offer (option_copied result) ≡ spec.offer_named name.now (map view.offer offers.now) }
{
    match index.get(name.bytes()) {
        None => None,
        Some(place) => offer_at(offers, *place),
    }
}

fn same_kind(a: ItemKind, b: ItemKind) -> bool
    ensures { result ≡ spec.same_kind a b }
{
    match (a, b) {
        (ItemKind::Procedure, ItemKind::Procedure)
        | (ItemKind::Signal, ItemKind::Signal)
        | (ItemKind::Error, ItemKind::Error) => true,
        (ItemKind::Procedure, ItemKind::Signal | ItemKind::Error)
        | (ItemKind::Signal, ItemKind::Procedure | ItemKind::Error)
        | (ItemKind::Error, ItemKind::Procedure | ItemKind::Signal) => false,
    }
}

/// Whether the fields have the same types, in order.
fn same_kinds(a: &[FieldType], b: &[FieldType]) -> bool
    ensures { result ≡ same_types (map plain_field a.now) (map plain_field b.now) }
{
    typed_answers::same_types(a, b)
}

/// Whether what is given is of the kind that is wanted, with the same types of parameters and of results.
fn is_for(given: &Item, wanted: &Item) -> bool
    ensures { result ≡ spec.is_for (plain_item given.now) (plain_item wanted.now) }
{
    same_kind(given.kind, wanted.kind)
        && same_kinds(given.takes.as_slice(), wanted.takes.as_slice())
        && same_kinds(given.gives.as_slice(), wanted.gives.as_slice())
}

/// What is offered under an item's name fits it, and is put behind those that are given.
fn give(
    item: &Item,
    number: u32,
    offer: Option<&Offer>,
    given: &mut Pairs,
) -> Result<(), CheckFault>
    ensures { GivesOnly (λ _. given.new) (step.given number (plain_item item.now) (option_map view.offer (option_copied offer.entry)) given.old) result }
{
    let Some(offer) = offer else {
        return Ok(());
    };
    if !is_for(offer.item.get(), item) {
        return Err(CheckFault::At(Cause::ExportDiffers, offer.name.place));
    }
    given.push(Pair {
        item: number,
        number: offer.number,
    })?;
    Ok(())
}

/// What is offered under the names of items, each of its item's kind and types.
fn pairs(
    items: &[Item],
    alloc: Global,
    index: &Names<u32>,
    offers: &[Offer],
) -> Result<Pairs, CheckFault>
    ensures { means index.now ≡ place_in 0 (view.names offers.now) → GivesOnly (λ pairs. pairs) (spec.pairs (map view.offer offers.now) 0 (map plain_item items.now)) result }
{
    let mut given = List::new(alloc);
    let mut number = 0u32;
    for item in items {
        give(
            item,
            number,
            offer_named(&item.name, index, offers),
            &mut given,
        )?;
        number = next(number)?;
    }
    Ok(given)
}

#[tactic(auto, using(crate::proofs::FaceLaws::face_back))]
fn export_of(
    interface: &Interface,
    alloc: Global,
    index: &Names<u32>,
    offers: &[Offer],
) -> Result<Export, CheckFault>
    ensures { means index.now ≡ place_in 0 (view.names offers.now) → GivesOnly (λ export. export) (step.export (map view.offer offers.now) (plain_interface interface.now)) result }
{
    let given = pairs(interface.face.items.as_slice(), alloc, index, offers)?;
    let face = interface.face.copy(alloc)?;
    Ok(Export { face, given })
}

/// The exports, each with what is given for its items: whatever is offered under an item's name must be of its kind and types.
pub fn exported(
    offers: &[Offer],
    alloc: Global,
    those: &[&Interface],
) -> Result<Exports, CheckFault>
    ensures { GivesOnly (λ exports. exports) (spec.exported (map view.offer offers.now) (found those.now)) result }
{
    let index = offer_places(offers, alloc)?;
    let mut exports = List::new(alloc);
    for interface in those {
        let (held, export) = both(exports, export_of(interface, alloc, &index, offers))?;
        exports = pushed(held, export)?;
    }
    Ok(exports)
}
