//! How the first bad item is answered.

ghost use Rattle.std.specs.Prelude.{◌≡◌, ◌⊎◌, IfOk};
ghost use Rattle.interface_records.specs.declared.wanted.WantedItem.{WantedItem};
ghost use Rattle.import_binder.specs.Bindings.{fault_by, item_named, path_of};
ghost use Rattle.import_binder.specs.Choosing.{cause_shown};
ghost use Rattle.import_binder.specs.declared.fault.BindFault.TheVariants.{Memory};

use crate::choosing::Cause;
use crate::fault::BindFault;
use config_rules::Tree;
use interface_records::WantedItem;
use mesa_base::{List, OutOfMemory, Path};
use mesa_types::{Face, Item};
use std::alloc::Global;

fn copy_path(alloc: Global, path: &Path) -> Result<Path, OutOfMemory>
    ensures { IfOk result (λ copy. copy ≡ path.now) }
{
    let mut copy = List::new(alloc);
    for name in path.as_slice() {
        copy.push(name.copy(alloc)?)?;
    }
    Ok(copy)
}

#[tactic(auto, unfolding(crate::specs::Bindings::path_in))]
fn path_of(alloc: Global, tree: &Tree, number: u32) -> Result<Path, OutOfMemory>
    ensures { IfOk result (λ path. path ≡ path_of tree.now number) }
{
    match tree.instances.get(number as usize) {
        Some(instance) => copy_path(alloc, &instance.path),
        None => Ok(List::new(alloc)),
    }
}

fn item_named(
    alloc: Global,
    path: &Path,
    face: &Face,
    item: &Item,
) -> Result<WantedItem, OutOfMemory>
    ensures { IfOk result (λ named. named ≡ item_named path.now face.now item.now) }
{
    Ok(WantedItem {
        at: copy_path(alloc, path)?,
        face: face.name.copy(alloc)?,
        stamp: face.stamp,
        item: item.name.copy(alloc)?,
    })
}

#[tactic(auto, unfolding(crate::specs::Bindings::fault_by, crate::specs::Choosing::cause_shown))]
fn fault_by(
    alloc: Global,
    tree: &Tree,
    item: WantedItem,
    cause: Cause,
) -> Result<BindFault, OutOfMemory>
    ensures { IfOk result (λ fault. fault ≡ fault_by tree.now item (cause_shown cause)) }
{
    match cause {
        Cause::NoExporter => Ok(BindFault::NoExporter(item)),
        Cause::Twice(first, second) => {
            let first = path_of(alloc, tree, first)?;
            let second = path_of(alloc, tree, second)?;
            Ok(BindFault::Twice(item, first, second))
        }
        Cause::OtherInterface(first) => {
            let first = path_of(alloc, tree, first)?;
            Ok(BindFault::OtherInterface(item, first))
        }
        Cause::OtherStamp(found) => {
            let wanted = item.stamp;
            Ok(BindFault::OtherStamp(item, wanted, found))
        }
    }
}

fn named(
    alloc: Global,
    tree: &Tree,
    path: &Path,
    face: &Face,
    item: &Item,
    cause: Cause,
) -> Result<BindFault, OutOfMemory>
    ensures { IfOk result (λ fault. fault ≡ fault_by tree.now (item_named path.now face.now item.now) (cause_shown cause)) }
{
    let item = item_named(alloc, path, face, item)?;
    fault_by(alloc, tree, item, cause)
}

/// The fault that names the item, which the instance of this path uses, with its cause; or memory ran out.
pub fn refuse(
    alloc: Global,
    tree: &Tree,
    path: &Path,
    face: &Face,
    item: &Item,
    cause: Cause,
) -> BindFault
    ensures { (result ≡ Memory) ⊎ (result ≡ fault_by tree.now (item_named path.now face.now item.now) (cause_shown cause)) }
{
    match named(alloc, tree, path, face, item, cause) {
        Ok(fault) => fault,
        Err(OutOfMemory) => BindFault::Memory,
    }
}
