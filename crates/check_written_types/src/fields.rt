//! Fields with names, which have one type.
ghost use Rattle.std.specs.Prelude.{◌≡◌, ◌++◌, Some, None, IfOk, OnOk};
ghost use Rattle.check_rules.specs.Parts as parts;
ghost use Rattle.interface_records.specs.PlainTypes.{plain, plain_field};
ghost use Rattle.check_state.specs.Views as words;

use held_trees::{LetGo, both, put};
use mesa_base::{Identifier, OutOfMemory};
use mesa_types::{FieldType, Fields, TypeTree};
use std::alloc::Global;

#[tactic(auto, using(check_state::proofs::TypeForms::parts_of_field))]
fn named_field(name: &Identifier, alloc: Global, kind: &TypeTree) -> Result<FieldType, OutOfMemory>
    ensures { IfOk result (λ made. plain_field made ≡ record { name = Some name.now.name; kind = plain kind.now }) }
{
    Ok(FieldType {
        name: Some(name.name.copy(alloc)?),
        kind: kind.copy(alloc)?,
    })
}

#[tactic(auto, using(check_state::proofs::TypeForms::parts_of_field))]
pub(crate) fn unnamed_field(kind: TypeTree) -> FieldType
    ensures { plain_field result ≡ record { name = None; kind = plain kind } }
{
    FieldType { name: None, kind }
}

fn add_fields(
    names: &[Identifier],
    alloc: Global,
    kind: &TypeTree,
    fields: &mut Fields,
) -> Result<(), OutOfMemory>
    ensures { OnOk result (words.fields fields.new ≡ words.fields fields.old ++ parts.each_of (plain kind.now) names.now) }
{
    for name in names {
        put(fields, named_field(name, alloc, kind)?)?;
    }
    Ok(())
}

/// The fields, and behind them one of this type for each of the names.
pub fn and_fields(
    names: &[Identifier],
    alloc: Global,
    kind: TypeTree,
    mut fields: Fields,
) -> Result<Fields, OutOfMemory>
    ensures { IfOk result (λ all. words.fields all ≡ words.fields fields ++ parts.each_of (plain kind) names.now) }
{
    let added = add_fields(names, alloc, &kind, &mut fields);
    kind.let_go();
    let (fields, _) = both(fields, added)?;
    Ok(fields)
}
