//! The links of instances.

ghost use Rattle.std.specs.Prelude.{◌≡◌, None, map, flat_map, slice_get, IfOk, IfErr, OnOk};
ghost use Rattle.config_rules.specs.declared.tree.TreeInstance.{TreeInstance};
ghost use Rattle.config_rules.specs.Resolves.{want, wants_in, wants, first_bad};
ghost use Rattle.import_binder.specs.Bindings.{AreLinks, IsRefused, Puts, all_meant, answers, want_at, wants_at};
ghost use Rattle.import_binder.specs.Looking.{IsIndexed};
ghost use Rattle.import_binder.specs.Places.{place_shown};

use crate::choosing::Resolution;
use crate::fault::BindFault;
use crate::finder::{Place, looked_up};
use crate::lookup::{IndexedTree, resolve};
use crate::naming::refuse;
use config_rules::{BindingList, BindingLists, TreeInstance};
use mesa_base::{List, Name};
use mesa_types::{Face, Import};
use std::alloc::Global;

// Puts the link of a used item of an interface that is looked up there.
fn put_link(
    alloc: Global,
    indexed: &IndexedTree,
    instance: &TreeInstance,
    face: &Face,
    place: &Option<Place>,
    number: u32,
    links: &mut BindingList,
) -> Result<(), BindFault>
    requires { IsIndexed indexed.now }
    ensures ok { OnOk result (Puts links.old links.new
        (want_at indexed.now.tree.now instance.now face.now (place_shown place.now) (slice_get face.now.items number))) }
    ensures err { IfErr result (IsRefused indexed.now.tree.now
        (want_at indexed.now.tree.now instance.now face.now (place_shown place.now) (slice_get face.now.items number))) }
{
    let Some(item) = face.items.get(number as usize) else {
        return Ok(());
    };
    let found = resolve(alloc, indexed, face, number, &item.name, place)?;
    match found {
        Resolution::StandsFor(binding) => {
            links.push(binding)?;
            Ok(())
        }
        Resolution::IsBad(cause) => {
            let tree = indexed.tree;
            Err(refuse(alloc, tree, &instance.path, face, item, cause))
        }
    }
}

// Puts the links of an import, whose record is this.
fn put_import(
    alloc: Global,
    indexed: &IndexedTree,
    instance: &TreeInstance,
    record_name: &Name,
    import: &Import,
    links: &mut BindingList,
) -> Result<(), BindFault>
    requires { IsIndexed indexed.now }
    ensures ok { OnOk result (Puts links.old links.new
        (flat_map (λ n. want indexed.now.tree.now instance.now record_name.now import.now.face (slice_get import.now.face.items n)) import.now.used)) }
    ensures err { IfErr result (IsRefused indexed.now.tree.now
        (flat_map (λ n. want indexed.now.tree.now instance.now record_name.now import.now.face (slice_get import.now.face.items n)) import.now.used)) }
{
    let place = looked_up(indexed.tree, indexed.imported, instance.scope, record_name);
    for number in import.used.as_slice() {
        put_link(
            alloc,
            indexed,
            instance,
            &import.face,
            &place,
            *number,
            links,
        )?;
    }
    Ok(())
}

fn put_import_at(
    alloc: Global,
    indexed: &IndexedTree,
    instance: &TreeInstance,
    at: usize,
    links: &mut BindingList,
) -> Result<(), BindFault>
    requires { IsIndexed indexed.now }
    ensures ok { OnOk result (Puts links.old links.new
        (wants_at indexed.now.tree.now instance.now (slice_get instance.now.imports at) (slice_get instance.now.shape.imports at))) }
    ensures err { IfErr result (IsRefused indexed.now.tree.now
        (wants_at indexed.now.tree.now instance.now (slice_get instance.now.imports at) (slice_get instance.now.shape.imports at))) }
{
    let Some(record_name) = instance.imports.get(at) else {
        return Ok(());
    };
    let Some(import) = instance.shape.imports.get(at) else {
        return Ok(());
    };
    put_import(alloc, indexed, instance, record_name, import, links)
}

// The links of an instance, in order.
fn links_of(
    alloc: Global,
    indexed: &IndexedTree,
    instance: &TreeInstance,
) -> Result<BindingList, BindFault>
    requires { IsIndexed indexed.now }
    ensures ok { IfOk result (AreLinks (wants_in indexed.now.tree.now instance.now)) }
    ensures err { IfErr result (IsRefused indexed.now.tree.now (wants_in indexed.now.tree.now instance.now)) }
{
    let mut links = List::new(alloc);
    for at in 0..instance.imports.len() {
        put_import_at(alloc, indexed, instance, at, &mut links)?;
    }
    Ok(links)
}

/// The links of each instance, in tree order; or the first bad item.
pub fn all_links(alloc: Global, indexed: &IndexedTree) -> Result<BindingLists, BindFault>
    requires { IsIndexed indexed.now }
    ensures ok { IfOk result (λ all. map all_meant all
        ≡ map (λ (x : TreeInstance). answers (wants_in indexed.now.tree.now x)) indexed.now.tree.now.instances) }
    ensures none_bad { OnOk result (first_bad (wants indexed.now.tree.now) ≡ None) }
    ensures err { IfErr result (IsRefused indexed.now.tree.now (wants indexed.now.tree.now)) }
{
    let mut all = List::new(alloc);
    for instance in indexed.tree.instances.as_slice() {
        let links = links_of(alloc, indexed, instance)?;
        all.push(links)?;
    }
    Ok(all)
}
