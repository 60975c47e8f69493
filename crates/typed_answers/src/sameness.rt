//! Whether types are the same, and whether a value of one may be given to a target of another.

ghost use Rattle.std.specs.Prelude.{◌≡◌, ◌↔◌, IsTrue};
ghost use Rattle.std.specs.Option.{option_copied};
ghost use Rattle.mesa_types.specs.Types.{SameType, types_in, Conforms, IsOneBase, IsNumber, base_of};

use mesa_types::mesa_base::{Name, Stamp};
use mesa_types::{FieldType, Origin, TypeTree};

/// Whether two names are spelled alike.
pub fn same_name(a: &Name, b: &Name) -> bool
    ensures { IsTrue result ↔ (a.now ≡ b.now) }
{
    a.bytes() == b.bytes()
}

fn same_names(a: &[Name], b: &[Name]) -> bool
    ensures { IsTrue result ↔ (a.now ≡ b.now) }
{
    if a.len() != b.len() {
        return false;
    }
    for i in 0..a.len() {
        if !same_name(&a[i], &b[i]) {
            return false;
        }
    }
    true
}

fn same_label(a: &Option<Name>, b: &Option<Name>) -> bool
    ensures { IsTrue result ↔ (a.now ≡ b.now) }
{
    match (a, b) {
        (None, None) => true,
        (Some(a), Some(b)) => same_name(a, b),
        _ => false,
    }
}

fn same_stamp(a: Option<Stamp>, b: Option<Stamp>) -> bool
    ensures { IsTrue result ↔ (a ≡ b) }
{
    match (a, b) {
        (None, None) => true,
        (Some(a), Some(b)) => a.number() == b.number(),
        _ => false,
    }
}

fn same_origin(a: &Origin, b: &Origin) -> bool
    ensures { IsTrue result ↔ (a.now ≡ b.now) }
{
    a.number == b.number && same_stamp(a.stamp, b.stamp) && same_name(&a.module, &b.module)
}

/// Whether two types are the same: their trees are equal, with origins, names, fields and bounds.
#[cycle(same_type)]
pub fn same_type(a: &TypeTree, b: &TypeTree) -> bool
    ensures { IsTrue result ↔ SameType a.now b.now }
{
    match (a, b) {
        (TypeTree::Integer, TypeTree::Integer)
        | (TypeTree::Cardinal, TypeTree::Cardinal)
        | (TypeTree::LongInteger, TypeTree::LongInteger)
        | (TypeTree::LongCardinal, TypeTree::LongCardinal)
        | (TypeTree::Boolean, TypeTree::Boolean)
        | (TypeTree::Character, TypeTree::Character)
        | (TypeTree::String, TypeTree::String) => true,
        (TypeTree::Enumeration(a, names), TypeTree::Enumeration(b, others)) => {
            same_origin(a, b) && same_names(names.get().as_slice(), others.get().as_slice())
        }
        (TypeTree::Subrange(a, first, last), TypeTree::Subrange(b, from, to)) => {
            *first == *from && *last == *to && same_type(a.get(), b.get())
        }
        (TypeTree::Array(i, a), TypeTree::Array(j, b)) => {
            same_type(i.get(), j.get()) && same_type(a.get(), b.get())
        }
        (TypeTree::Record(a, fields), TypeTree::Record(b, others)) => {
            same_origin(a, b) && same_fields(fields.get().as_slice(), others.get().as_slice())
        }
        _ => false,
    }
}

/// Whether two lists of fields, parameters or results are equal: their names, and their types by `same_type`.
#[cycle(same_type)]
pub fn same_fields(a: &[FieldType], b: &[FieldType]) -> bool
    ensures { IsTrue result ↔ (a.now ≡ b.now) }
{
    if a.len() != b.len() {
        return false;
    }
    for i in 0..a.len() {
        if !same_label(&a[i].name, &b[i].name) || !same_type(&a[i].kind, &b[i].kind) {
            return false;
        }
    }
    true
}

/// Whether two lists of parameters or results have the same types, in order; their names are free.
pub fn same_types(a: &[FieldType], b: &[FieldType]) -> bool
    ensures { IsTrue result ↔ (types_in a.now ≡ types_in b.now) }
{
    if a.len() != b.len() {
        return false;
    }
    for i in 0..a.len() {
        if !same_type(&a[i].kind, &b[i].kind) {
            return false;
        }
    }
    true
}

/// The base of an ordinal type, which for a subrange is that of the type whose values it has, and of a LONG type, which is
/// the type itself; else None.
pub fn base(t: &TypeTree) -> Option<&TypeTree>
    ensures { option_copied result ≡ base_of t.now }
{
    match t {
        TypeTree::Subrange(of, _, _) => base(of.get()),
        TypeTree::String | TypeTree::Array(_, _) | TypeTree::Record(_, _) => None,
        _ => Some(t),
    }
}

fn is_number(base: &TypeTree) -> bool
    ensures { IsTrue result ↔ IsNumber base.now }
{
    matches!(
        base,
        TypeTree::Integer | TypeTree::Cardinal | TypeTree::LongInteger | TypeTree::LongCardinal
    )
}

fn is_one_base(a: &TypeTree, b: &TypeTree) -> bool
    ensures { IsTrue result ↔ IsOneBase a.now b.now }
{
    (is_number(a) && is_number(b)) || same_type(a, b)
}

/// Whether a value of the first type may be given to a target of the second: both have one base, where the four
/// number types count as one, or are the same type.
pub fn conforms(from: &TypeTree, to: &TypeTree) -> bool
    ensures { IsTrue result ↔ Conforms from.now to.now }
{
    match (base(from), base(to)) {
        (Some(a), Some(b)) => is_one_base(a, b) || same_type(from, to),
        _ => same_type(from, to),
    }
}
