//! The fields of a record or the results of a call, by name.
ghost use Rattle.std.specs.Prelude.{◌≡◌, ◌+◌, List, ℕ, option_map, IfOk, OnOk};
ghost use Rattle.check_scopes.specs.Scopes.{over};
ghost use Rattle.check_scopes.specs.Shows.{means};
ghost use Rattle.check_rules.specs.Parts as parts;
ghost use Rattle.interface_records.specs.PlainTypes.{plain, words_of};
ghost use Rattle.check_state.specs.Views as words;
ghost use Rattle.check_simple_statements.specs.Spots as view;

use check_scopes::Names;
use check_state::{next, size, sum};
use mesa_base::{Identifier, Name, OutOfMemory};
use mesa_types::{FieldType, TypeTree};
use std::alloc::Global;

/// A field: its number, the words before it, its type.
#[derive(Clone, Copy)]
pub(crate) struct Spot<'a> {
    pub(crate) number: u32,
    pub(crate) offset: u32,
    pub(crate) kind: &'a TypeTree,
}

/// How many words stand before the next field.
pub(crate) fn past(offset: u32, kind: &TypeTree) -> Result<u32, OutOfMemory>
    ensures { IfOk result (λ words. words ≡ offset + words_of (plain kind.now)) }
{
    let words = size(kind)?;
    match offset.checked_add(words) {
        Some(past) => Ok(past),
        None => Err(OutOfMemory),
    }
}

fn and_spot<'a>(
    alloc: Global,
    index: &mut Names<Spot<'a>>,
    label: &Option<Name>,
    spot: Spot<'a>,
) -> Result<(), OutOfMemory>
    ensures { OnOk result (means index.new ≡ over (means index.old) (view.named_spot label.now spot.entry)) }
{
    match label {
        Some(label) => index.declare_first(alloc, label.bytes(), spot),
        None => Ok(()),
    }
}

fn index_of<'a>(alloc: Global, fields: &'a [FieldType]) -> Result<Names<Spot<'a>>, OutOfMemory>
    ensures { IfOk result (λ index. (x : List ℕ) → option_map view.spot (means index x) ≡ parts.found x 0 0 (words.fields fields.now)) }
{
    let mut index = Names::new(alloc);
    let mut number = 0u32;
    let mut offset = 0u32;
    for field in fields {
        let spot = Spot {
            number,
            offset,
            kind: &field.kind,
        };
        and_spot(alloc, &mut index, &field.name, spot)?;
        number = next(number)?;
        offset = past(offset, &field.kind)?;
    }
    Ok(index)
}

/// Fields with an index of them: for each name the first that has it.
#[derive(Drop)]
pub(crate) struct Spots<'a> {
    pub(crate) fields: &'a [FieldType],
    pub(crate) index: Names<Spot<'a>>,
}

impl<'a> Spots<'a> {
    pub(crate) fn of(alloc: Global, fields: &'a [FieldType]) -> Result<Spots<'a>, OutOfMemory>
        ensures fields { IfOk result (λ made. made.fields.now ≡ fields.now) }
        ensures finds { IfOk result (λ made. view.Finds made) }
    {
        let index = index_of(alloc, fields)?;
        Ok(Spots { fields, index })
    }

    /// The first field with this name.
    pub(crate) fn find(&self, name: &Identifier) -> Option<Spot<'a>>
        requires { view.Finds self.now }
        ensures { option_map view.spot result ≡ parts.field_named (words.fields self.now.fields.now) name.now }
    {
        self.index.get(name.name.bytes()).copied()
    }
}
