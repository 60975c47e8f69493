//! What an interface offers: its items, constants and types, and the elements of its own enumerations.
ghost use Rattle.std.specs.Prelude.{◌≡◌, [], ◌∷◌, map, IfOk, OnOk};
ghost use Rattle.check_scopes.specs.Scopes.{over};
ghost use Rattle.check_state.specs.Views as view;
ghost use Rattle.check_rules.specs.Directory as spec;
ghost use Rattle.interface_records.specs.PlainTypes.{plain, plain_item, plain_constant, plain_name};

use crate::offers::offer;
use check_scopes::Names;
use check_state::{Meaning, next};
use interface_records::{Constant, Interface, NamedType};
use mesa_base::{OutOfMemory, Shared};
use mesa_types::{Callee, Item, ItemKind, Raised};
use std::alloc::Global;

/// An item of an interface, which is the import of this number or none.
fn meaning_of(
    item: &Item,
    alloc: Global,
    import: Option<u32>,
    number: u32,
) -> Result<Meaning, OutOfMemory>
    ensures { IfOk result (λ meaning. view.meaning meaning ≡ spec.of_import import number (plain_item item.now)) }
{
    let Some(import) = import else {
        return Ok(Meaning::NotImported);
    };
    let head = Shared::new(alloc, item.copy(alloc)?)?;
    match item.kind {
        ItemKind::Procedure => Ok(Meaning::Procedure(
            Callee::LinkedProcedure(import, number),
            head,
        )),
        ItemKind::Signal | ItemKind::Error => Ok(Meaning::Signal(
            Raised::LinkedSignal(import, number),
            head,
        )),
    }
}

pub fn items(
    items: &[Item],
    alloc: Global,
    import: Option<u32>,
    names: &mut Names<Meaning>,
) -> Result<(), OutOfMemory>
    ensures { OnOk result (view.names names.new ≡ over (view.names names.old) (spec.first_entry (spec.items_from import 0 (map plain_item items.now)))) }
{
    let mut number = 0u32;
    for item in items {
        let meaning = meaning_of(item, alloc, import, number)?;
        offer(&item.name, alloc, meaning, names)?;
        number = next(number)?;
    }
    Ok(())
}

pub fn constants(
    constants: &[Constant],
    alloc: Global,
    names: &mut Names<Meaning>,
) -> Result<(), OutOfMemory>
    ensures { OnOk result (view.names names.new ≡ over (view.names names.old) (spec.first_entry (map spec.constant_entry (map plain_constant constants.now)))) }
{
    for constant in constants {
        let kind = constant.kind.copy(alloc)?;
        offer(
            &constant.name,
            alloc,
            Meaning::Constant(kind, constant.value),
            names,
        )?;
    }
    Ok(())
}

pub fn types(
    types: &[NamedType],
    alloc: Global,
    names: &mut Names<Meaning>,
) -> Result<(), OutOfMemory>
    ensures { OnOk result (view.names names.new ≡ over (view.names names.old) (spec.first_entry (map spec.type_entry (map plain_name types.now)))) }
{
    for named in types {
        let kind = named.kind.copy(alloc)?;
        offer(&named.name, alloc, Meaning::TypeName(kind), names)?;
    }
    Ok(())
}
