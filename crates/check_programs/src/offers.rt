//! What is public.
ghost use Rattle.std.specs.Prelude.{◌≡◌, [], ◌∷◌, ◌++◌, map, OnOk, IfOk};
ghost use Rattle.check_heads.specs.check_faces.specs.Offers.{offer};
ghost use Rattle.interface_records.specs.PlainTypes.{plain_item};
ghost use Rattle.check_rules.specs.Programs as spec;

use check_heads::check_faces::Offer;
use check_state::next;
use mesa_base::{Identifier, OutOfMemory, Shared};
use mesa_types::Item;
use std::alloc::Global;
use syntax_trees::syntax::Access;

fn is_public(access: Option<Access>) -> bool
    ensures { result ≡ spec.is_public access }
{
    match access {
        Some(Access::Public) => true,
        Some(Access::Private) | None => false,
    }
}

fn copied(name: &Identifier, alloc: Global) -> Result<Identifier, OutOfMemory>
    ensures { IfOk result (λ copy. copy ≡ name.now) }
{
    Ok(Identifier {
        name: name.name.copy(alloc)?,
        place: name.place,
    })
}

fn offer_one(
    name: &Identifier,
    alloc: Global,
    number: u32,
    item: &Shared<Item>,
    offers: &mut Vec<Offer>,
) -> Result<(), OutOfMemory>
    ensures { OnOk result (map offer offers.new.items ≡ map offer offers.old.items ++ spec.procedure_offer number (plain_item item.now) name.now ∷ []) }
{
    let item = item.share()?;
    let name = copied(name, alloc)?;
    offers.push(Offer { name, number, item })?;
    Ok(())
}

/// Each of the names offers the procedure of this number.
fn offer_procedures(
    names: &[Identifier],
    alloc: Global,
    number: u32,
    item: &Shared<Item>,
    offers: &mut Vec<Offer>,
) -> Result<(), OutOfMemory>
    ensures { OnOk result (map offer offers.new.items ≡ map offer offers.old.items ++ map (spec.procedure_offer number (plain_item item.now)) names.now) }
{
    for name in names {
        offer_one(name, alloc, number, item, offers)?;
    }
    Ok(())
}

/// What a procedure with these names offers.
pub fn procedure_offers(
    names: &[Identifier],
    alloc: Global,
    access: Option<Access>,
    number: u32,
    item: &Shared<Item>,
    offers: &mut Vec<Offer>,
) -> Result<(), OutOfMemory>
    ensures { OnOk result (map offer offers.new.items ≡ map offer offers.old.items ++ spec.if_public access (map (spec.procedure_offer number (plain_item item.now)) names.now)) }
{
    if is_public(access) {
        offer_procedures(names, alloc, number, item, offers)
    } else {
        Ok(())
    }
}

/// Each of the names offers a signal, the first that of this number.
fn offer_signals(
    names: &[Identifier],
    alloc: Global,
    first: u32,
    items: &[Shared<Item>],
    offers: &mut Vec<Offer>,
) -> Result<(), OutOfMemory>
    ensures { OnOk result (map offer offers.new.items ≡ map offer offers.old.items ++ spec.signal_offers first names.now (map plain_item items.now)) }
{
    let mut number = first;
    for i in 0..names.len().min(items.len()) {
        offer_one(&names[i], alloc, number, &items[i], offers)?;
        number = next(number)?;
    }
    Ok(())
}

/// What signals or errors with these names offer.
pub fn signal_offers(
    names: &[Identifier],
    alloc: Global,
    access: Option<Access>,
    first: u32,
    items: &[Shared<Item>],
    offers: &mut Vec<Offer>,
) -> Result<(), OutOfMemory>
    ensures { OnOk result (map offer offers.new.items ≡ map offer offers.old.items ++ spec.if_public access (spec.signal_offers first names.now (map plain_item items.now))) }
{
    if is_public(access) {
        offer_signals(names, alloc, first, items, offers)
    } else {
        Ok(())
    }
}
