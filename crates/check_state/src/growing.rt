//! Fields to which more are put, and which can be had twice.
ghost use Rattle.std.specs.Prelude.{◌≡◌, [], ◌∷◌, ◌++◌, IfOk, OnOk, IfErr};
ghost use Rattle.check_state.specs.Growing.{together};

use interface_records::check_scopes::shared_all;
use mesa_types::held_trees::{both, put};
use mesa_types::mesa_base::{List, Name, OutOfMemory, Shared};
use mesa_types::{FieldType, Fields};
use std::alloc::{AllocFailed, Global};
use std::marker::Model;

type Part = Shared<Fields>;

/// Fields in order. That they are had twice takes a number of steps that grows with them but little (`twice`): what is put to one of the
/// two later is not in the other.
#[derive(Drop)]
pub struct GrowingFields {
    /// What stands in several, the first fields first; each part is less than half as long as the one before it.
    frozen: Vec<Part>,
    newest: Fields,
}

impl Model for GrowingFields {
    ghost use Rattle.std.specs.Prelude.{List, ◌++◌};
    ghost use Rattle.std.specs.Coded.{codes};
    ghost use Rattle.mesa_types.specs.contracts.types.FieldType as field;
    ghost use Rattle.mesa_types.specs.declared.types.FieldType.{FieldType};
    ghost use Rattle.check_state.specs.Growing.{together};

    ghost Value = { List FieldType };

    ghost coded = { Prim.hlevel (codes, field.the_row.coded) };

    ghost view = { λ fields. together fields.frozen.items ++ fields.newest };
}

fn copy_label(alloc: Global, label: &Option<Name>) -> Result<Option<Name>, OutOfMemory>
    ensures { IfOk result (λ copy. copy ≡ label.now) }
{
    match label {
        None => Ok(None),
        Some(name) => Ok(Some(name.copy(alloc)?)),
    }
}

/// The same field, in a number of steps that does not grow with its type.
fn copy_field(alloc: Global, field: &FieldType) -> Result<FieldType, OutOfMemory>
    ensures { IfOk result (λ copy. copy ≡ field.now) }
{
    let name = copy_label(alloc, &field.name)?;
    let (name, kind) = both(name, field.kind.copy(alloc))?;
    Ok(FieldType { name, kind })
}

/// Puts copies of these fields at the end of the list.
fn put_copies(fields: &[FieldType], alloc: Global, list: &mut Fields) -> Result<(), OutOfMemory>
    ensures { OnOk result (list.new ≡ list.old ++ fields.now) }
{
    for field in fields {
        put(list, copy_field(alloc, field)?)?;
    }
    Ok(())
}

/// The same fields, in a number of steps that does not grow with their types.
pub fn copied_fields(fields: &[FieldType], alloc: Global) -> Result<Fields, OutOfMemory>
    ensures { IfOk result (λ copy. copy ≡ fields.now) }
{
    let mut copy = List::new(alloc);
    put_copies(fields, alloc, &mut copy)?;
    Ok(copy)
}

/// All that stands in these parts.
fn all_of(parts: &[Part], alloc: Global) -> Result<Fields, OutOfMemory>
    ensures { IfOk result (λ all. all ≡ together parts.now) }
{
    let mut all = List::new(alloc);
    for part in parts {
        put_copies(part.get().as_slice(), alloc, &mut all)?;
    }
    Ok(all)
}

fn joined(older: &Fields, newer: &Fields, alloc: Global) -> Result<Fields, OutOfMemory>
    ensures { IfOk result (λ all. all ≡ older.now ++ newer.now) }
{
    let mut all = copied_fields(older.as_slice(), alloc)?;
    put_copies(newer.as_slice(), alloc, &mut all)?;
    Ok(all)
}

/// Joins the last parts until each is less than half as long as the one before it: so there are but log n of them, and a field is copied
/// but log n times.
fn merge(alloc: Global, parts: &mut Vec<Part>) -> Result<(), OutOfMemory>
    ensures { OnOk result (together parts.new.items ≡ together parts.old.items) }
{
    while let Some(newer) = parts.pop() {
        let Some(older) = parts.pop() else {
            parts.push(newer)?;
            return Ok(());
        };
        if older.get().len() / 2 > newer.get().len() {
            parts.push(older)?;
            parts.push(newer)?;
            return Ok(());
        }
        let all = joined(older.get(), newer.get(), alloc)?;
        parts.push(Shared::new(alloc, all)?)?;
    }
    Ok(())
}

impl GrowingFields {
    /// No field. It takes no memory.
    pub fn new(alloc: Global) -> GrowingFields
        ensures { result ≡ [] }
    {
        GrowingFields {
            frozen: Vec::new(alloc),
            newest: List::new(alloc),
        }
    }

    /// Puts the field at the end. Where memory runs out it hands the field back, and the fields are as before.
    pub fn push(&mut self, field: FieldType) -> Result<(), AllocFailed<FieldType>>
        ensures ok { OnOk result (self.new ≡ self.old ++ field ∷ []) }
        ensures err { IfErr result (λ back. (self.new ≡ self.old) × (back.value ≡ field)) }
    {
        self.newest.push(field)
    }

    /// All in parts that can stand in several.
    fn parts(self, alloc: Global) -> Result<Vec<Part>, OutOfMemory>
        ensures { IfOk result (λ parts. together parts.items ≡ self) }
    {
        let GrowingFields { mut frozen, newest } = self;
        if newest.is_empty() {
            return Ok(frozen);
        }
        frozen.push(Shared::new(alloc, newest)?)?;
        merge(alloc, &mut frozen)?;
        Ok(frozen)
    }

    /// The same fields twice. However often it is asked, a field is copied but some log n times.
    pub fn twice(self, alloc: Global) -> Result<(GrowingFields, GrowingFields), OutOfMemory>
        ensures { IfOk result (λ both. (both.0 ≡ self) × (both.1 ≡ self)) }
    {
        let frozen = self.parts(alloc)?;
        let more = shared_all(alloc, frozen.as_slice())?;
        let first = GrowingFields {
            frozen,
            newest: List::new(alloc),
        };
        let second = GrowingFields {
            frozen: more,
            newest: List::new(alloc),
        };
        Ok((first, second))
    }

    /// The fields in one list. None is copied where they were never had twice.
    pub fn into_list(self, alloc: Global) -> Result<Fields, OutOfMemory>
        ensures { IfOk result (λ list. list ≡ self) }
    {
        let GrowingFields { frozen, newest } = self;
        if frozen.is_empty() {
            return Ok(newest);
        }
        let mut list = all_of(frozen.as_slice(), alloc)?;
        list.append(newest)?;
        Ok(list)
    }
}
