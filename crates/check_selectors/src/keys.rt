//! Lists in which each value has the name of a field as its key.
ghost use Rattle.std.specs.Prelude.{◌≡◌, ◌++◌, ◌∷◌, [], map, true, IfOk, OnOk};
ghost use Rattle.mesa_base.specs.declared.identifier.Identifier.{Identifier};
ghost use Rattle.check_rules.specs.syntax_trees.specs.declared.syntax.Keyed.{Keyed};
ghost use Rattle.interface_records.specs.PlainTypes.{plain_field};
ghost use Rattle.check_scopes.specs.Scopes.{over, with_name};
ghost use Rattle.check_scopes.specs.Shows.{means};
ghost use Rattle.check_selectors.specs.Keys as spec;

use check_rules::syntax_trees::syntax::Keyed;
use check_scopes::Names;
use check_state::next;
use mesa_base::{Identifier, List, Name, Numbers, OutOfMemory};
use mesa_types::FieldType;
use std::alloc::Global;

fn and_field(
    alloc: Global,
    names: &mut Names<u32>,
    label: &Option<Name>,
    number: u32,
) -> Result<(), OutOfMemory>
    ensures { OnOk result (means names.new ≡ over (means names.old) (spec.named_number label.now number)) }
{
    match label {
        Some(label) => names.declare_first(alloc, label.bytes(), number),
        None => Ok(()),
    }
}

/// The number of the first field with each name.
fn numbers(alloc: Global, fields: &[FieldType]) -> Result<Names<u32>, OutOfMemory>
    ensures { IfOk result (λ names. means names ≡ spec.numbered 0 (map plain_field fields.now)) }
{
    let mut names = Names::new(alloc);
    let mut number = 0u32;
    for field in fields {
        and_field(alloc, &mut names, &field.name, number)?;
        number = next(number)?;
    }
    Ok(names)
}

/// The number of the field that a key names, unless the key is taken; it is from here on.
fn take(
    alloc: Global,
    numbers: &Names<u32>,
    taken: &mut Names<bool>,
    key: &Identifier,
) -> Result<Option<u32>, OutOfMemory>
    ensures number { IfOk result (λ number. number ≡ spec.unless (means taken.old key.now.name) (means numbers.now key.now.name)) }
    ensures taken { OnOk result (means taken.new ≡ with_name key.now.name true (means taken.old)) }
{
    let name = key.name.bytes();
    let number = if taken.has(name) {
        None
    } else {
        numbers.get(name).copied()
    };
    taken.declare(alloc, name, true)?;
    Ok(number)
}

fn and_number(mut numbers: Numbers, number: u32) -> Result<Numbers, OutOfMemory>
    ensures { IfOk result (λ more. more ≡ numbers ++ number ∷ []) }
{
    numbers.push(number)?;
    Ok(numbers)
}

/// The numbers of the fields that the keys name, where each names one and none stands twice.
fn all_places<T>(
    alloc: Global,
    numbers: &Names<u32>,
    keyed: &[Keyed<T>],
) -> Result<Option<Numbers>, OutOfMemory>
    ensures { IfOk result (λ places. places ≡ spec.places_from (means numbers.now) (λ x. None) [] (map (λ (x : Keyed T). x.key) keyed.now)) }
{
    let mut taken = Names::new(alloc);
    let mut places = List::new(alloc);
    for one in keyed {
        match take(alloc, numbers, &mut taken, &one.key)? {
            None => return Ok(None),
            Some(number) => places = and_number(places, number)?,
        }
    }
    Ok(Some(places))
}

/// The numbers of the fields that the keys name, where each field has exactly one key.
#[tactic(auto, using(crate::proofs::KeyLaws::places_many))]
pub fn places<T>(
    alloc: Global,
    fields: &[FieldType],
    keyed: &[Keyed<T>],
) -> Result<Option<Numbers>, OutOfMemory>
    ensures { IfOk result (λ places. places ≡ spec.places (map plain_field fields.now) (map (λ (x : Keyed T). x.key) keyed.now)) }
{
    if keyed.len() != fields.len() {
        return Ok(None);
    }
    let numbers = numbers(alloc, fields)?;
    all_places(alloc, &numbers, keyed)
}
