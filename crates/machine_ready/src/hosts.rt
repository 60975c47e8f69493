//! Which wanted items the host has.

ghost use Rattle.std.specs.Prelude.{◌≡◌, ◌↔◌, All, Any, IsTrue, IfOk, IfErr, OnOk};
ghost use Rattle.interface_records.specs.Faces.{iodefs};
ghost use Rattle.interface_records.specs.declared.wanted.WantedItem.{WantedItem};
ghost use Rattle.machine_ready.specs.declared.fault.ReadyFault.TheVariants.{Unresolved};
ghost use Rattle.machine_ready.specs.Hosts.{SameItem, IsHostItem, IsFault, named};

use crate::fault::ReadyFault;
use held_trees::LetGo;
use interface_records::typed_answers::same_name;
use interface_records::{Wanted, WantedItem, io_face, same_signature};
use mesa_base::{List, OutOfMemory};
use mesa_types::{Face, Item};
use std::alloc::Global;

fn is_same_item(a: &Item, b: &Item) -> bool
    ensures { IsTrue result ↔ SameItem a.now b.now }
{
    same_name(&a.name, &b.name) && same_signature(a, b)
}

fn is_offered(items: &[Item], item: &Item) -> bool
    ensures { IsTrue result ↔ Any (SameItem item.now) items.now }
{
    for offered in items {
        if is_same_item(item, offered) {
            return true;
        }
    }
    false
}

/// Whether the wanted item is one of the built-in interface, which is this face.
pub fn is_host_item(face: &Face, wanted: &Wanted) -> bool
    requires { face.now ≡ iodefs.face }
    ensures { IsTrue result ↔ IsHostItem wanted.now }
{
    same_name(&wanted.face, &face.name)
        && wanted.stamp.number() == face.stamp.number()
        && is_offered(face.items.as_slice(), &wanted.item)
}

/// The item as a fault names it.
pub fn named_item(alloc: Global, wanted: &Wanted) -> Result<WantedItem, OutOfMemory>
    ensures { IfOk result (λ item. item ≡ named wanted.now) }
{
    Ok(WantedItem {
        at: List::new(alloc),
        face: wanted.face.copy(alloc)?,
        stamp: wanted.stamp,
        item: wanted.item.name.copy(alloc)?,
    })
}

fn refuse(alloc: Global, wanted: &Wanted) -> ReadyFault
    ensures { (item : WantedItem) → result ≡ Unresolved item → item ≡ named wanted.now }
{
    match named_item(alloc, wanted) {
        Ok(item) => ReadyFault::Unresolved(item),
        Err(OutOfMemory) => ReadyFault::Memory,
    }
}

fn all_offered(alloc: Global, face: &Face, wanteds: &[Wanted]) -> Result<(), ReadyFault>
    requires { face.now ≡ iodefs.face }
    ensures ok { OnOk result (All IsHostItem wanteds.now) }
    ensures err { IfErr result (IsFault wanteds.now) }
{
    for wanted in wanteds {
        if !is_host_item(face, wanted) {
            return Err(refuse(alloc, wanted));
        }
    }
    Ok(())
}

/// Looks for the first wanted item that is none of the host's.
pub fn all_from_host(alloc: Global, wanteds: &[Wanted]) -> Result<(), ReadyFault>
    ensures ok { OnOk result (All IsHostItem wanteds.now) }
    ensures err { IfErr result (IsFault wanteds.now) }
{
    let face = io_face(alloc)?;
    let answer = all_offered(alloc, &face, wanteds);
    face.let_go();
    answer
}
