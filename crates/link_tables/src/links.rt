//! The links of the instances, in one pass over the items that they use.

ghost use Rattle.std.specs.Prelude.{◌≡◌, [], Some, IfOk, OnOk, slice_get};
ghost use Rattle.link_tables.specs.Linked.{link_by};
ghost use Rattle.link_tables.specs.Passes.{entry_in, entry_at, entries_of, entries_in, pass, noted_by, bound, all_bound, tables, table_by, next_table, all_tables};
ghost use Rattle.link_tables.specs.Wanting.{IsIndexed};

use crate::wanting::Wanting;
use config_rules::{Binding, BindingList, BindingLists, TreeInstance};
use mesa_base::{List, OutOfMemory};
use mesa_types::{Face, Import, Item};
use object_files::{Link, LinkTable, LinkTables};
use std::alloc::Global;

// One that is left to the loader is wanted.
#[tactic(auto, unfolding(crate::specs::Linked::link_by))]
fn link_to(
    alloc: Global,
    wanting: &mut Wanting,
    face: &Face,
    item: &Item,
    binding: Binding,
) -> Result<Link, OutOfMemory>
    requires { IsIndexed wanting.old }
    ensures noted { OnOk result (wanting.new.entries ≡ noted_by wanting.old.entries (entry_in face.now item.now) binding) }
    ensures link { IfOk result (λ link. link ≡ link_by wanting.new.entries (entry_in face.now item.now) binding) }
    ensures indexed { OnOk result (IsIndexed wanting.new) }
{
    match binding {
        Binding::Left => Ok(Link::Wanted(wanting.number_of(alloc, face, item)?)),
        Binding::To(instance, number) => Ok(Link::To { instance, number }),
    }
}

fn put_bound(
    alloc: Global,
    wanting: &mut Wanting,
    face: &Face,
    item: &Item,
    binding: Binding,
    table: &mut LinkTable,
) -> Result<(), OutOfMemory>
    requires { IsIndexed wanting.old }
    ensures bound { OnOk result (pass wanting.new.entries table.new ≡ bound (pass wanting.old.entries table.old) (entry_in face.now item.now) binding) }
    ensures indexed { OnOk result (IsIndexed wanting.new) }
{
    table.push(link_to(alloc, wanting, face, item, binding)?)?;
    Ok(())
}

// The item of this number, bound as the list says at the place of its link.
fn put_item(
    alloc: Global,
    wanting: &mut Wanting,
    face: &Face,
    number: u32,
    bindings: &[Binding],
    table: &mut LinkTable,
) -> Result<(), OutOfMemory>
    requires { IsIndexed wanting.old }
    ensures bound { OnOk result (pass wanting.new.entries table.new
        ≡ all_bound bindings.now (pass wanting.old.entries table.old) (entry_at face.now (slice_get face.now.items number))) }
    ensures indexed { OnOk result (IsIndexed wanting.new) }
{
    let Some(item) = face.items.get(number as usize) else {
        return Ok(());
    };
    match bindings.get(table.len()) {
        Some(binding) => put_bound(alloc, wanting, face, item, *binding, table),
        None => Ok(()),
    }
}

fn put_import(
    alloc: Global,
    wanting: &mut Wanting,
    import: &Import,
    bindings: &[Binding],
    table: &mut LinkTable,
) -> Result<(), OutOfMemory>
    requires { IsIndexed wanting.old }
    ensures bound { OnOk result (pass wanting.new.entries table.new
        ≡ all_bound bindings.now (pass wanting.old.entries table.old) (entries_of import.now)) }
    ensures indexed { OnOk result (IsIndexed wanting.new) }
{
    for number in import.used.as_slice() {
        put_item(alloc, wanting, &import.face, *number, bindings, table)?;
    }
    Ok(())
}

fn put_imports(
    alloc: Global,
    wanting: &mut Wanting,
    imports: &[Import],
    bindings: &[Binding],
    table: &mut LinkTable,
) -> Result<(), OutOfMemory>
    requires { IsIndexed wanting.old }
    ensures bound { OnOk result (pass wanting.new.entries table.new
        ≡ all_bound bindings.now (pass wanting.old.entries table.old) (entries_in imports.now)) }
    ensures indexed { OnOk result (IsIndexed wanting.new) }
{
    for import in imports {
        put_import(alloc, wanting, import, bindings, table)?;
    }
    Ok(())
}

fn put_table(
    alloc: Global,
    wanting: &mut Wanting,
    instance: &TreeInstance,
    bindings: &BindingList,
    links: &mut LinkTables,
) -> Result<(), OutOfMemory>
    requires { IsIndexed wanting.old }
    ensures put { OnOk result (tables wanting.new.entries links.new
        ≡ table_by (tables wanting.old.entries links.old) instance.now (Some bindings.now)) }
    ensures indexed { OnOk result (IsIndexed wanting.new) }
{
    let mut table = List::new(alloc);
    let imports = instance.shape.imports.as_slice();
    put_imports(alloc, wanting, imports, bindings.as_slice(), &mut table)?;
    links.push(table)?;
    Ok(())
}

fn put_next(
    alloc: Global,
    wanting: &mut Wanting,
    instance: &TreeInstance,
    bindings: &BindingLists,
    links: &mut LinkTables,
) -> Result<(), OutOfMemory>
    requires { IsIndexed wanting.old }
    ensures put { OnOk result (tables wanting.new.entries links.new
        ≡ next_table bindings.now (tables wanting.old.entries links.old) instance.now) }
    ensures indexed { OnOk result (IsIndexed wanting.new) }
{
    match bindings.get(links.len()) {
        Some(bindings) => put_table(alloc, wanting, instance, bindings, links),
        None => Ok(()),
    }
}

/// The links of each instance, bound as these lists say.
pub fn put_all(
    alloc: Global,
    wanting: &mut Wanting,
    instances: &[TreeInstance],
    bindings: &BindingLists,
    links: &mut LinkTables,
) -> Result<(), OutOfMemory>
    requires { IsIndexed wanting.old }
    ensures put { OnOk result (tables wanting.new.entries links.new
        ≡ all_tables bindings.now (tables wanting.old.entries links.old) instances.now) }
    ensures indexed { OnOk result (IsIndexed wanting.new) }
{
    for instance in instances {
        put_next(alloc, wanting, instance, bindings, links)?;
    }
    Ok(())
}
