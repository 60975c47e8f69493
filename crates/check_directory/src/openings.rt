//! What the items of a DIRECTORY offer to a module.
ghost use Rattle.std.specs.Prelude.{◌≡◌, List, map, IfOk};
ghost use Rattle.check_scopes.specs.Shows.{means};
ghost use Rattle.check_state.specs.Views as view;
ghost use Rattle.check_rules.specs.Directory as spec;
ghost use Rattle.interface_records.specs.PlainTypes.{plain_interface};
ghost use Rattle.mesa_base.specs.declared.identifier.Identifier.{Identifier as ListedName};

use crate::entries::entries;
use crate::positions::{directory_places, places};
use crate::restricted::restricted;
use check_scopes::Names;
use check_state::Meaning;
use interface_records::Interface;
use mesa_base::{Identifier, OutOfMemory};
use std::alloc::Global;
use syntax_trees::syntax::DirectoryItem;

/// What an item offers: the names of its interface, or those of its USING list.
fn offer_of(
    item: &DirectoryItem,
    alloc: Global,
    imports: &Names<u32>,
    interface: &Interface,
) -> Result<Names<Meaning>, OutOfMemory>
    ensures { IfOk result (λ names. view.names names ≡ spec.restricted item.now.used (spec.first_entry (spec.entries (means imports.now item.now.name.name) (plain_interface interface.now)))) }
{
    let import = imports.get(item.name.name.bytes()).copied();
    let names = entries(interface, alloc, import)?;
    restricted(&item.used, alloc, names)
}

/// What each item of the DIRECTORY offers to a module with these IMPORTS.
pub fn offered(
    imports: &[Identifier],
    alloc: Global,
    directory: &[DirectoryItem],
    interfaces: &[Interface],
) -> Result<Vec<Names<Meaning>>, OutOfMemory>
    ensures { IfOk result (λ all. map view.names all.items ≡ spec.offered imports.now directory.now (map plain_interface interfaces.now)) }
{
    let places = places(imports, alloc)?;
    let mut all = Vec::new(alloc);
    let mut items = directory;
    let mut given = interfaces;
    'items: while let Some((item, items_left)) = items.split_first() {
        let Some((interface, given_left)) = given.split_first() else {
            return Ok(all);
        };
        let names = offer_of(item, alloc, &places, interface)?;
        all.push(names)?;
        items = items_left;
        given = given_left;
    }
    Ok(all)
}

/// What the item at this place offers, if there is one with an interface.
fn offer_at(
    place: Option<u32>,
    alloc: Global,
    imports: &Names<u32>,
    directory: &[DirectoryItem],
    interfaces: &[Interface],
) -> Result<Names<Meaning>, OutOfMemory>
    ensures { IfOk result (λ names. (list : List ListedName) → means imports.now ≡ spec.place_in 0 list → view.names names ≡ spec.scope_at (spec.offered list directory.now (map plain_interface interfaces.now)) place) }
{
    let Some(place) = place else {
        return Ok(Names::new(alloc));
    };
    let Some(item) = directory.get(place as usize) else {
        return Ok(Names::new(alloc));
    };
    match interfaces.get(place as usize) {
        None => Ok(Names::new(alloc)),
        Some(interface) => offer_of(item, alloc, imports, interface),
    }
}

/// The names of the opened interfaces: of two with one name the first gives it.
pub fn opened(
    opens: &[Identifier],
    alloc: Global,
    imports: &[Identifier],
    directory: &[DirectoryItem],
    interfaces: &[Interface],
) -> Result<Names<Meaning>, OutOfMemory>
    ensures { IfOk result (λ names. view.names names ≡ spec.opened directory.now (spec.offered imports.now directory.now (map plain_interface interfaces.now)) opens.now) }
{
    let imported = places(imports, alloc)?;
    let known = directory_places(directory, alloc)?;
    let mut names = Names::new(alloc);
    let mut rest = opens;
    'opens: while let Some((open, before)) = rest.split_last() {
        let place = known.get(open.name.bytes()).copied();
        let offer = offer_at(place, alloc, &imported, directory, interfaces)?;
        names.declare_all(offer)?;
        rest = before;
    }
    Ok(names)
}
