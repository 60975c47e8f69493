//! What images still want: items of the built-in interface, each once.

ghost use Rattle.std.specs.Prelude.{◌≡◌, [], ◌∷◌, ◌++◌, IfOk, OnOk};
ghost use Rattle.object_rules.specs.ImageForms.{same_signature};
ghost use Rattle.loader_rules.specs.Wanted.{entry_number, still_wanted};
ghost use Rattle.load_checks.specs.Places.{number_in, stands_shown};
ghost use Rattle.load_checks.specs.Wanting.{IsIndexed, entries_shown, noted_in, noted_one, place_of};

use crate::choosing::is_built_in;
use crate::key::key_of;
use crate::places::{Numbered, PlaceIndex, put_place};
use held_trees::LetGo;
use indexmap::IndexMap;
use interface_records::{Wanted, Wanteds, same_signature};
use mesa_base::{List, OutOfMemory};
use mesa_types::Item;
use object_files::Image;
use std::alloc::{AllocFailed, Global};
use std::mem::drop;

/// Items that are wanted, each once, and an index of them.
#[derive(Drop)]
pub struct Wanting<'a> {
    pub entries: Vec<&'a Wanted>,
    pub places: PlaceIndex<'a>,
}

fn is_like(a: &Item, b: &Item) -> bool
    ensures { result ≡ same_signature a.now b.now }
{
    same_signature(a, b)
}

fn number_in(items: &[Numbered], wanted: &Wanted) -> Option<usize>
    ensures { result ≡ number_in (stands_shown items.now) wanted.now }
{
    for item in items {
        if is_like(&item.wanted.item, &wanted.item) {
            return Some(item.number);
        }
    }
    None
}

// The number of the item among those that are wanted, if it is one of them.
fn place_of(alloc: Global, wanting: &Wanting, wanted: &Wanted) -> Result<Option<usize>, OutOfMemory>
    requires { IsIndexed wanting.now }
    ensures { IfOk result (λ place. place ≡ place_of (entries_shown wanting.now.entries.items) wanted.now) }
{
    let key = key_of(alloc, wanted)?;
    match wanting.places.get(&key) {
        Some(items) => Ok(number_in(items.as_slice(), wanted)),
        None => Ok(None),
    }
}

/// The number of the item among those that are wanted; where it is none of them, how many they are.
pub fn entry_number(alloc: Global, wanting: &Wanting, wanted: &Wanted) -> Result<usize, OutOfMemory>
    requires { IsIndexed wanting.now }
    ensures { IfOk result (λ number. number ≡ entry_number (entries_shown wanting.now.entries.items) wanted.now) }
{
    let place = place_of(alloc, wanting, wanted)?;
    match place {
        Some(number) => Ok(number),
        None => Ok(wanting.entries.len()),
    }
}

fn put_entry<'a>(
    alloc: Global,
    wanting: &mut Wanting<'a>,
    wanted: &'a Wanted,
) -> Result<(), OutOfMemory>
    requires { IsIndexed wanting.old }
    ensures put { OnOk result (entries_shown wanting.new.entries.items ≡ entries_shown wanting.old.entries.items ++ wanted.now ∷ []) }
    ensures indexed { OnOk result (IsIndexed wanting.new) }
{
    let key = key_of(alloc, wanted)?;
    let number = wanting.entries.len();
    put_place(alloc, &mut wanting.places, key, Numbered { number, wanted })?;
    wanting.entries.push(wanted)?;
    Ok(())
}

// An item of the built-in interface is put behind the others, unless it stands there already.
fn note<'a>(alloc: Global, wanting: &mut Wanting<'a>, wanted: &'a Wanted) -> Result<(), OutOfMemory>
    requires { IsIndexed wanting.old }
    ensures noted { OnOk result (entries_shown wanting.new.entries.items ≡ noted_one (entries_shown wanting.old.entries.items) wanted.now) }
    ensures indexed { OnOk result (IsIndexed wanting.new) }
{
    if !is_built_in(&wanted.face) {
        return Ok(());
    }
    let place = place_of(alloc, wanting, wanted)?;
    match place {
        Some(_) => Ok(()),
        None => put_entry(alloc, wanting, wanted),
    }
}

fn note_image<'a>(
    alloc: Global,
    wanting: &mut Wanting<'a>,
    image: &'a Image,
) -> Result<(), OutOfMemory>
    requires { IsIndexed wanting.old }
    ensures noted { OnOk result (entries_shown wanting.new.entries.items ≡ noted_in (entries_shown wanting.old.entries.items) image.now.wanted) }
    ensures indexed { OnOk result (IsIndexed wanting.new) }
{
    for wanted in image.wanted.as_slice() {
        note(alloc, wanting, wanted)?;
    }
    Ok(())
}

/// What images still want.
pub fn still_wanted<'a>(alloc: Global, images: &'a [Image]) -> Result<Wanting<'a>, OutOfMemory>
    ensures wanted { IfOk result (λ wanting. entries_shown wanting.entries.items ≡ still_wanted images.now) }
    ensures indexed { IfOk result IsIndexed }
{
    let mut wanting = Wanting {
        entries: Vec::new(alloc),
        places: IndexMap::new(alloc),
    };
    for image in images {
        note_image(alloc, &mut wanting, image)?;
    }
    Ok(wanting)
}

fn let_wanteds_go(wanteds: Wanteds) {
    drop(wanteds);
}

fn copy_of(alloc: Global, wanted: &Wanted) -> Result<Wanted, OutOfMemory>
    ensures { IfOk result (λ copy. copy ≡ wanted.now) }
{
    Ok(Wanted {
        face: wanted.face.copy(alloc)?,
        stamp: wanted.stamp,
        item: wanted.item.copy(alloc)?,
    })
}

fn put(wanteds: &mut Wanteds, wanted: Wanted) -> Result<(), OutOfMemory>
    ensures { OnOk result (wanteds.new ≡ wanteds.old ++ wanted ∷ []) }
{
    match wanteds.push(wanted) {
        Ok(()) => Ok(()),
        Err(failed) => {
            let AllocFailed { value } = failed;
            let Wanted {
                face: _,
                stamp: _,
                item,
            } = value;
            item.let_go();
            Err(OutOfMemory)
        }
    }
}

fn put_copy(alloc: Global, wanteds: &mut Wanteds, wanted: &Wanted) -> Result<(), OutOfMemory>
    ensures { OnOk result (wanteds.new ≡ wanteds.old ++ wanted.now ∷ []) }
{
    put(wanteds, copy_of(alloc, wanted)?)
}

fn put_copies(alloc: Global, wanteds: &mut Wanteds, entries: &[&Wanted]) -> Result<(), OutOfMemory>
    ensures { OnOk result (wanteds.new ≡ wanteds.old ++ entries_shown entries.now) }
{
    for entry in entries {
        put_copy(alloc, wanteds, entry)?;
    }
    Ok(())
}

/// These, copied.
pub fn copied(alloc: Global, entries: &[&Wanted]) -> Result<Wanteds, OutOfMemory>
    ensures { IfOk result (λ copies. copies ≡ entries_shown entries.now) }
{
    let mut wanteds = List::new(alloc);
    match put_copies(alloc, &mut wanteds, entries) {
        Ok(()) => Ok(wanteds),
        Err(OutOfMemory) => {
            let_wanteds_go(wanteds);
            Err(OutOfMemory)
        }
    }
}
