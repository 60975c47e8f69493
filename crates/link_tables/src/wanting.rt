//! The items that are wanted of the loader, each once.

ghost use Rattle.std.specs.Prelude.{◌≡◌, [], ◌∷◌, ◌++◌, IfOk, OnOk};
ghost use Rattle.link_tables.specs.Linked.{noted, entry_number};
ghost use Rattle.link_tables.specs.Passes.{entry_in};
ghost use Rattle.link_tables.specs.Wanting.{IsIndexed};

use crate::key::EntryKey;
use held_trees::LetGo;
use indexmap::IndexSet;
use interface_records::{Wanted, Wanteds};
use mesa_base::{List, OutOfMemory};
use mesa_types::{Face, Item};
use std::alloc::{AllocFailed, Global};
use std::mem::drop;

/// The wanted items in the order in which they are wanted first, and the place of each under its interface's name and stamp
/// and its own name.
pub struct Wanting {
    pub keys: IndexSet<EntryKey>,
    pub entries: Wanteds,
}

pub fn let_wanteds_go(wanteds: Wanteds) {
    drop(wanteds);
}

fn wanted(alloc: Global, face: &Face, item: &Item) -> Result<Wanted, OutOfMemory>
    ensures { IfOk result (λ wanted. wanted ≡ entry_in face.now item.now) }
{
    Ok(Wanted {
        face: face.name.copy(alloc)?,
        stamp: face.stamp,
        item: item.copy(alloc)?,
    })
}

fn put(wanteds: &mut Wanteds, wanted: Wanted) -> Result<(), OutOfMemory>
    ensures { OnOk result (wanteds.new ≡ wanteds.old ++ wanted ∷ []) }
{
    match wanteds.push(wanted) {
        Ok(()) => Ok(()),
        Err(failed) => {
            let AllocFailed { value } = failed;
            let Wanted {
                face: _,
                stamp: _,
                item,
            } = value;
            item.let_go();
            Err(OutOfMemory)
        }
    }
}

fn key_of(alloc: Global, face: &Face, item: &Item) -> Result<EntryKey, OutOfMemory>
    ensures { IfOk result (λ key. key ≡ record { face = face.now.name; stamp = face.now.stamp; item = item.now.name }) }
{
    Ok(EntryKey {
        face: face.name.copy(alloc)?,
        stamp: face.stamp,
        item: item.name.copy(alloc)?,
    })
}

impl Wanting {
    /// Nothing is wanted. It takes no memory.
    pub fn new(alloc: Global) -> Wanting
        ensures nothing { result.entries ≡ [] }
        ensures indexed { IsIndexed result }
    {
        Wanting {
            keys: IndexSet::new(alloc),
            entries: List::new(alloc),
        }
    }

    // The place of the item; one that is not wanted yet is put behind the others.
    fn place_of(&mut self, alloc: Global, face: &Face, item: &Item) -> Result<usize, OutOfMemory>
        requires { IsIndexed self.old }
        ensures noted { OnOk result (self.new.entries ≡ noted self.old.entries (entry_in face.now item.now ∷ [])) }
        ensures place { IfOk result (λ place. place ≡ entry_number self.new.entries (entry_in face.now item.now)) }
        ensures indexed { OnOk result (IsIndexed self.new) }
    {
        let (place, is_new) = self.keys.insert_full(key_of(alloc, face, item)?)?;
        if is_new {
            put(&mut self.entries, wanted(alloc, face, item)?)?;
        }
        Ok(place)
    }

    /// The number of the item among those that are wanted; one that is not wanted yet is put behind the others. So many that
    /// 32 bits can't number them count as want of memory.
    pub fn number_of(&mut self, alloc: Global, face: &Face, item: &Item) -> Result<u32, OutOfMemory>
        requires { IsIndexed self.old }
        ensures noted { OnOk result (self.new.entries ≡ noted self.old.entries (entry_in face.now item.now ∷ [])) }
        ensures number { IfOk result (λ number. number ≡ entry_number self.new.entries (entry_in face.now item.now)) }
        ensures indexed { OnOk result (IsIndexed self.new) }
    {
        match u32::try_from(self.place_of(alloc, face, item)?) {
            Ok(number) => Ok(number),
            Err(_) => Err(OutOfMemory),
        }
    }
}
