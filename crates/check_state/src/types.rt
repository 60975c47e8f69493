//! Questions on types, with the definition's answers.
ghost use Rattle.std.specs.Prelude.{◌≡◌, ◌<◌, option_map, map, min, IfOk};
ghost use Rattle.std.specs.Option.{option_copied};
ghost use Rattle.interface_records.specs.PlainTypes as spec;
ghost use Rattle.interface_records.specs.PlainTypes.{plain, plain_field};

use mesa_types::mesa_base::OutOfMemory;
use mesa_types::{Base, FieldType, TypeTree};

/// Whether two types are the same.
pub fn same(a: &TypeTree, b: &TypeTree) -> bool
    ensures { result ≡ spec.same (plain a.now) (plain b.now) }
{
    interface_records::typed_answers::same_type(a, b)
}

#[tactic(auto, using(crate::proofs::TypeForms::type_forms))]
pub fn is_integer(t: &TypeTree) -> bool
    ensures { result ≡ spec.is_integer (plain t.now) }
{
    match t {
        TypeTree::Integer => true,
        TypeTree::Cardinal
        | TypeTree::LongInteger
        | TypeTree::LongCardinal
        | TypeTree::Boolean
        | TypeTree::Character
        | TypeTree::String
        | TypeTree::Enumeration(_, _)
        | TypeTree::Subrange(_, _, _)
        | TypeTree::Array(_, _)
        | TypeTree::Record(_, _) => false,
    }
}

#[tactic(auto, using(crate::proofs::TypeForms::type_forms))]
pub fn is_cardinal(t: &TypeTree) -> bool
    ensures { result ≡ spec.is_cardinal (plain t.now) }
{
    match t {
        TypeTree::Cardinal => true,
        TypeTree::Integer
        | TypeTree::LongInteger
        | TypeTree::LongCardinal
        | TypeTree::Boolean
        | TypeTree::Character
        | TypeTree::String
        | TypeTree::Enumeration(_, _)
        | TypeTree::Subrange(_, _, _)
        | TypeTree::Array(_, _)
        | TypeTree::Record(_, _) => false,
    }
}

#[tactic(auto, using(crate::proofs::TypeForms::type_forms))]
pub fn is_text(t: &TypeTree) -> bool
    ensures { result ≡ spec.is_text (plain t.now) }
{
    match t {
        TypeTree::String => true,
        TypeTree::Integer
        | TypeTree::Cardinal
        | TypeTree::LongInteger
        | TypeTree::LongCardinal
        | TypeTree::Boolean
        | TypeTree::Character
        | TypeTree::Enumeration(_, _)
        | TypeTree::Subrange(_, _, _)
        | TypeTree::Array(_, _)
        | TypeTree::Record(_, _) => false,
    }
}

/// The words of the first and the last value of a subrange.
#[tactic(auto, using(crate::proofs::TypeForms::type_forms))]
pub fn bounds(t: &TypeTree) -> Option<(u16, u16)>
    ensures { result ≡ spec.bounds (plain t.now) }
{
    match t {
        TypeTree::Subrange(_, first, last) => Some((*first, *last)),
        TypeTree::Integer
        | TypeTree::Cardinal
        | TypeTree::LongInteger
        | TypeTree::LongCardinal
        | TypeTree::Boolean
        | TypeTree::Character
        | TypeTree::String
        | TypeTree::Enumeration(_, _)
        | TypeTree::Array(_, _)
        | TypeTree::Record(_, _) => None,
    }
}

/// The index type and the element type of an array.
#[tactic(auto, using(crate::proofs::TypeForms::type_forms))]
pub fn array_parts(t: &TypeTree) -> Option<(&TypeTree, &TypeTree)>
    ensures { option_map (λ p. (plain p.0.now, plain p.1.now)) result ≡ spec.array_parts (plain t.now) }
{
    match t {
        TypeTree::Array(index, element) => Some((index.get(), element.get())),
        TypeTree::Integer
        | TypeTree::Cardinal
        | TypeTree::LongInteger
        | TypeTree::LongCardinal
        | TypeTree::Boolean
        | TypeTree::Character
        | TypeTree::String
        | TypeTree::Enumeration(_, _)
        | TypeTree::Subrange(_, _, _)
        | TypeTree::Record(_, _) => None,
    }
}

/// The fields of a record.
#[tactic(auto, using(crate::proofs::TypeForms::type_forms, crate::proofs::TypeForms::record_fields))]
pub fn fields(t: &TypeTree) -> Option<&[FieldType]>
    ensures { option_map (map plain_field) (option_copied result) ≡ spec.fields (plain t.now) }
{
    match t {
        TypeTree::Record(_, fields) => Some(fields.get().as_slice()),
        TypeTree::Integer
        | TypeTree::Cardinal
        | TypeTree::LongInteger
        | TypeTree::LongCardinal
        | TypeTree::Boolean
        | TypeTree::Character
        | TypeTree::String
        | TypeTree::Enumeration(_, _)
        | TypeTree::Subrange(_, _, _)
        | TypeTree::Array(_, _) => None,
    }
}

/// The base of an ordinal type, for a subrange that of the type whose values it has; of a LONG type the type itself.
#[tactic(auto, using(crate::proofs::TypeLaws::base_plain))]
pub fn base_of(t: &TypeTree) -> Option<&TypeTree>
    ensures { option_map plain (option_copied result) ≡ spec.base_of (plain t.now) }
{
    interface_records::typed_answers::base(t)
}

#[tactic(auto, using(crate::proofs::TypeForms::type_forms))]
fn is_long_integer(t: &TypeTree) -> bool
    ensures { result ≡ spec.is_long_integer (plain t.now) }
{
    match t {
        TypeTree::LongInteger => true,
        TypeTree::Integer
        | TypeTree::Cardinal
        | TypeTree::LongCardinal
        | TypeTree::Boolean
        | TypeTree::Character
        | TypeTree::String
        | TypeTree::Enumeration(_, _)
        | TypeTree::Subrange(_, _, _)
        | TypeTree::Array(_, _)
        | TypeTree::Record(_, _) => false,
    }
}

#[tactic(auto, using(crate::proofs::TypeForms::type_forms))]
fn is_long_cardinal(t: &TypeTree) -> bool
    ensures { result ≡ spec.is_long_cardinal (plain t.now) }
{
    match t {
        TypeTree::LongCardinal => true,
        TypeTree::Integer
        | TypeTree::Cardinal
        | TypeTree::LongInteger
        | TypeTree::Boolean
        | TypeTree::Character
        | TypeTree::String
        | TypeTree::Enumeration(_, _)
        | TypeTree::Subrange(_, _, _)
        | TypeTree::Array(_, _)
        | TypeTree::Record(_, _) => false,
    }
}

/// Whether a type is one of the two LONG types, which are not ordinal.
pub fn is_long(t: &TypeTree) -> bool
    ensures { result ≡ spec.is_long (plain t.now) }
{
    is_long_integer(t) || is_long_cardinal(t)
}

fn is_ordinal_base(base: Option<&TypeTree>) -> bool
    ensures { result ≡ spec.is_ordinal_base (option_map plain (option_copied base.entry)) }
{
    match base {
        Some(base) => !is_long(base),
        None => false,
    }
}

/// Whether a type is ordinal.
#[tactic(auto, unfolding(interface_records::specs::PlainTypes::is_ordinal))]
pub fn is_ordinal(t: &TypeTree) -> bool
    ensures { result ≡ spec.is_ordinal (plain t.now) }
{
    is_ordinal_base(base_of(t))
}

/// Whether a type is one of the four number types.
fn is_number(t: &TypeTree) -> bool
    ensures { result ≡ spec.is_number (plain t.now) }
{
    is_integer(t) || is_cardinal(t) || is_long(t)
}

/// Whether there are two bases, and they are the same; the four number types count as one.
fn one_base(a: Option<&TypeTree>, b: Option<&TypeTree>) -> bool
    ensures { result ≡ spec.one_base (option_map plain (option_copied a.entry)) (option_map plain (option_copied b.entry)) }
{
    match (a, b) {
        (Some(a), Some(b)) => is_number(a) && is_number(b) || same(a, b),
        (Some(_), None) | (None, _) => false,
    }
}

/// Whether there are two bases of ordinal types, and they are the same; INTEGER and CARDINAL count as one.
pub fn one_ordinal_base(a: Option<&TypeTree>, b: Option<&TypeTree>) -> bool
    ensures { result ≡ spec.one_ordinal_base (option_map plain (option_copied a.entry)) (option_map plain (option_copied b.entry)) }
{
    is_ordinal_base(a) && is_ordinal_base(b) && one_base(a, b)
}

/// Whether a value of the first type may be given to a target of the second.
#[tactic(auto, unfolding(interface_records::specs::PlainTypes::conforms))]
pub fn conforms(from: &TypeTree, to: &TypeTree) -> bool
    ensures { result ≡ spec.conforms (plain from.now) (plain to.now) }
{
    one_base(base_of(from), base_of(to)) || same(from, to)
}

fn sign_by(base: Option<&TypeTree>) -> Base
    ensures { result ≡ spec.sign_by (option_map plain (option_copied base.entry)) }
{
    match base {
        Some(base) if is_integer(base) || is_long_integer(base) => Base::Signed,
        Some(_) => Base::Unsigned,
        None => Base::Unsigned,
    }
}

/// How the words of a type, or the two words of a LONG type, are read as numbers.
#[tactic(auto, unfolding(interface_records::specs::PlainTypes::sign_of))]
pub fn sign_of(t: &TypeTree) -> Base
    ensures { result ≡ spec.sign_of (plain t.now) }
{
    sign_by(base_of(t))
}

/// How many values an index type has.
#[tactic(auto, using(crate::proofs::TypeLaws::elements_plain))]
pub fn elements_of(t: &TypeTree) -> usize
    ensures { result ≡ spec.elements_of (plain t.now) }
{
    interface_records::typed_answers::elements(t)
}

/// The size of a type in words, or 4,294,967,295 where it is greater.
#[tactic(auto, using(crate::proofs::KindLaws::words_plain))]
pub fn words_of(t: &TypeTree) -> u32
    ensures { result ≡ min (spec.words_of (plain t.now)) 4294967295 }
{
    interface_records::typed_answers::size_words(t)
}

/// The size of fields, parameters or results together, or 4,294,967,295 where it is greater.
#[tactic(auto, using(crate::proofs::KindLaws::words_plain_fields))]
pub fn words_of_fields(fields: &[FieldType]) -> u32
    ensures { result ≡ min (spec.words_of_fields (map plain_field fields.now)) 4294967295 }
{
    interface_records::typed_answers::fields_words(fields)
}

/// The size of a type in words, which each type of a module has.
pub fn size(t: &TypeTree) -> Result<u32, OutOfMemory>
    ensures { IfOk result (λ words. words ≡ spec.words_of (plain t.now)) }
{
    exact(words_of(t))
}

/// The size of fields, parameters or results together.
pub fn fields_size(fields: &[FieldType]) -> Result<u32, OutOfMemory>
    ensures { IfOk result (λ words. words ≡ spec.words_of_fields (map plain_field fields.now)) }
{
    exact(words_of_fields(fields))
}

fn exact(words: u32) -> Result<u32, OutOfMemory>
    ensures { IfOk result (λ same. (same ≡ words) × (words < 4294967295)) }
{
    if words < 4294967295 {
        Ok(words)
    } else {
        Err(OutOfMemory)
    }
}
