//! The elements of the enumerations that an interface itself declares.
ghost use Rattle.std.specs.Prelude.{◌≡◌, map, OnOk};
ghost use Rattle.check_scopes.specs.Scopes.{over};
ghost use Rattle.check_state.specs.Views as view;
ghost use Rattle.check_rules.specs.Directory as spec;
ghost use Rattle.interface_records.specs.PlainTypes.{plain, plain_field, plain_item, plain_constant, plain_name, plain_interface};

use crate::offers::offer;
use check_scopes::Names;
use check_state::{Meaning, next};
use interface_records::{Constant, Interface, NamedType};
use mesa_base::{Name, OutOfMemory};
use mesa_types::{FieldType, Item, Origin, TypeTree};
use std::alloc::Global;

/// The elements of an enumeration, each with its number.
fn elements(
    elements: &[Name],
    alloc: Global,
    kind: &TypeTree,
    names: &mut Names<Meaning>,
) -> Result<(), OutOfMemory>
    ensures { OnOk result (view.names names.new ≡ over (view.names names.old) (spec.first_entry (spec.elements_from (plain kind.now) 0 elements.now))) }
{
    let mut number = 0u32;
    for element in elements {
        let kind = kind.copy(alloc)?;
        offer(element, alloc, Meaning::Constant(kind, number), names)?;
        number = next(number)?;
    }
    Ok(())
}

fn is_own(origin: &Origin, interface: &Interface) -> bool
    ensures { result ≡ spec.is_own (plain_interface interface.now) origin.now }
{
    match origin.stamp {
        None => false,
        Some(stamp) => {
            interface.face.name.bytes() == origin.module.bytes()
                && interface.face.stamp.number() == stamp.number()
        }
    }
}

#[cycle(elements)]
#[tactic(auto, using(check_state::proofs::TypeForms::type_forms, crate::proofs::EntryLaws::over_none, crate::proofs::EntryLaws::over_entries, crate::proofs::EntryLaws::parts_fields), unfolding(check_rules::specs::Directory::elements_in))]
fn in_type(
    kind: &TypeTree,
    alloc: Global,
    interface: &Interface,
    names: &mut Names<Meaning>,
) -> Result<(), OutOfMemory>
    ensures { OnOk result (view.names names.new ≡ over (view.names names.old) (spec.first_entry (spec.elements_in (plain_interface interface.now) (plain kind.now)))) }
{
    match kind {
        TypeTree::Enumeration(origin, found) => {
            if is_own(origin, interface) {
                elements(found.get().as_slice(), alloc, kind, names)
            } else {
                Ok(())
            }
        }
        TypeTree::Subrange(base, _, _) => in_type(base.get(), alloc, interface, names),
        TypeTree::Array(index, element) => {
            in_type(index.get(), alloc, interface, names)?;
            in_type(element.get(), alloc, interface, names)
        }
        TypeTree::Record(_, fields) => in_fields(fields.get().as_slice(), alloc, interface, names),
        TypeTree::Integer
        | TypeTree::Cardinal
        | TypeTree::LongInteger
        | TypeTree::LongCardinal
        | TypeTree::Boolean
        | TypeTree::Character
        | TypeTree::String => Ok(()),
    }
}

#[cycle(elements)]
fn in_fields(
    fields: &[FieldType],
    alloc: Global,
    interface: &Interface,
    names: &mut Names<Meaning>,
) -> Result<(), OutOfMemory>
    ensures { OnOk result (view.names names.new ≡ over (view.names names.old) (spec.first_entry (spec.in_fields (plain_interface interface.now) (map plain_field fields.now)))) }
{
    for field in fields {
        in_type(&field.kind, alloc, interface, names)?;
    }
    Ok(())
}

pub fn in_items(
    items: &[Item],
    alloc: Global,
    interface: &Interface,
    names: &mut Names<Meaning>,
) -> Result<(), OutOfMemory>
    ensures { OnOk result (view.names names.new ≡ over (view.names names.old) (spec.first_entry (spec.in_items (plain_interface interface.now) (map plain_item items.now)))) }
{
    for item in items {
        in_fields(item.takes.as_slice(), alloc, interface, names)?;
        in_fields(item.gives.as_slice(), alloc, interface, names)?;
    }
    Ok(())
}

pub fn in_constants(
    constants: &[Constant],
    alloc: Global,
    interface: &Interface,
    names: &mut Names<Meaning>,
) -> Result<(), OutOfMemory>
    ensures { OnOk result (view.names names.new ≡ over (view.names names.old) (spec.first_entry (spec.in_constants (plain_interface interface.now) (map plain_constant constants.now)))) }
{
    for constant in constants {
        in_type(&constant.kind, alloc, interface, names)?;
    }
    Ok(())
}

pub fn in_types(
    types: &[NamedType],
    alloc: Global,
    interface: &Interface,
    names: &mut Names<Meaning>,
) -> Result<(), OutOfMemory>
    ensures { OnOk result (view.names names.new ≡ over (view.names names.old) (spec.first_entry (spec.in_types (plain_interface interface.now) (map plain_name types.now)))) }
{
    for named in types {
        in_type(&named.kind, alloc, interface, names)?;
    }
    Ok(())
}
