//! Types, and the words that are their values.
ghost use Rattle.std.specs.Prelude.{◌≡◌, ◌∷◌, ◌++◌, ℕ, decimal, if◌then◌else◌, OnOk};
ghost use Rattle.listing_rules.specs.Types as spec;
ghost use Rattle.mesa_base.specs.Decimal.{signed_word};

use crate::texts::{put_mark, put_name, put_names, put_number, put_text};
use interface_records::Constant;
use mesa_base::{Bytes, Name, OutOfMemory};
use mesa_types::{FieldType, Names, TypeTree};

/// Whether the words of the type's values are signed numbers.
fn is_signed(t: &TypeTree) -> bool
    ensures { result ≡ spec.is_signed t.now }
{
    match t {
        TypeTree::Integer => true,
        TypeTree::Subrange(base, _, _) => is_signed(base.get()),
        _ => false,
    }
}

/// Whether a value of the type is two words read as a signed number.
#[tactic(auto, using(listing_rules::proofs::TypeLaws::values))]
fn is_long_signed(t: &TypeTree) -> bool
    ensures { (n : ℕ) → spec.value_text t.now n ≡ (if result then spec.signed_long n else spec.word_text (spec.is_signed t.now) n) }
{
    match t {
        TypeTree::LongInteger => true,
        TypeTree::LongCardinal => false,
        TypeTree::Integer => false,
        TypeTree::Cardinal => false,
        TypeTree::Boolean => false,
        TypeTree::Character => false,
        TypeTree::String => false,
        TypeTree::Enumeration(_, _) => false,
        TypeTree::Subrange(_, _, _) => false,
        TypeTree::Array(_, _) => false,
        TypeTree::Record(_, _) => false,
    }
}

/// A negative number, whose digits these are without the sign.
fn put_negative(out: &mut Bytes, digits: u64) -> Result<(), OutOfMemory>
    ensures { OnOk result (out.new ≡ out.old ++ (45 ∷ decimal digits)) }
{
    put_text(out, b"-")?;
    put_number(out, digits)
}

/// A word as a signed number.
fn put_signed_word(out: &mut Bytes, word: u32) -> Result<(), OutOfMemory>
    ensures { OnOk result (out.new ≡ out.old ++ signed_word word) }
{
    if word < 1 << 15 {
        put_number(out, word as u64)
    } else {
        put_negative(out, 65536_u64.saturating_sub(word as u64))
    }
}

/// Two words as a signed number.
fn put_signed_long(out: &mut Bytes, long: u32) -> Result<(), OutOfMemory>
    ensures { OnOk result (out.new ≡ out.old ++ spec.signed_long long) }
{
    if long < 1 << 31 {
        put_number(out, long as u64)
    } else {
        put_negative(out, 4294967296_u64.saturating_sub(long as u64))
    }
}

/// A word as a number.
fn put_value(out: &mut Bytes, is_signed: bool, word: u32) -> Result<(), OutOfMemory>
    ensures { OnOk result (out.new ≡ out.old ++ spec.word_text is_signed word) }
{
    if is_signed {
        put_signed_word(out, word)
    } else {
        put_number(out, word as u64)
    }
}

fn put_bounds(out: &mut Bytes, is_signed: bool, first: u16, last: u16) -> Result<(), OutOfMemory>
    ensures { OnOk result (out.new ≡ out.old ++ spec.bounds_text is_signed first last) }
{
    put_text(out, b" [")?;
    put_value(out, is_signed, first as u32)?;
    put_text(out, b"..")?;
    put_value(out, is_signed, last as u32)?;
    put_text(out, b"]")
}

fn put_elements(out: &mut Bytes, names: &Names) -> Result<(), OutOfMemory>
    ensures { OnOk result (out.new ≡ out.old ++ spec.names_text names.now) }
{
    put_text(out, b"{")?;
    put_names(out, b", ", names.as_slice())?;
    put_text(out, b"}")
}

fn put_label(out: &mut Bytes, label: &Option<Name>) -> Result<(), OutOfMemory>
    ensures { OnOk result (out.new ≡ out.old ++ spec.label_text label.now) }
{
    match label {
        None => Ok(()),
        Some(name) => {
            put_name(out, name)?;
            put_text(out, b": ")
        }
    }
}

/// A type.
#[cycle(printing)]
#[tactic(auto, using(listing_rules::proofs::TypeLaws::integer_printed, listing_rules::proofs::TypeLaws::cardinal_printed, listing_rules::proofs::TypeLaws::long_integer_printed, listing_rules::proofs::TypeLaws::long_cardinal_printed, listing_rules::proofs::TypeLaws::boolean_printed, listing_rules::proofs::TypeLaws::character_printed, listing_rules::proofs::TypeLaws::string_printed, listing_rules::proofs::TypeLaws::enumeration_printed, listing_rules::proofs::TypeLaws::subrange_printed, listing_rules::proofs::TypeLaws::array_printed, listing_rules::proofs::TypeLaws::record_printed))]
pub(crate) fn put_type(out: &mut Bytes, t: &TypeTree) -> Result<(), OutOfMemory>
    ensures { OnOk result (out.new ≡ out.old ++ spec.type_text t.now) }
{
    match t {
        TypeTree::Integer => put_text(out, b"INTEGER"),
        TypeTree::Cardinal => put_text(out, b"CARDINAL"),
        TypeTree::LongInteger => put_text(out, b"LONG INTEGER"),
        TypeTree::LongCardinal => put_text(out, b"LONG CARDINAL"),
        TypeTree::Boolean => put_text(out, b"BOOLEAN"),
        TypeTree::Character => put_text(out, b"CHARACTER"),
        TypeTree::String => put_text(out, b"STRING"),
        TypeTree::Enumeration(_, names) => put_elements(out, names.get()),
        TypeTree::Subrange(base, first, last) => {
            put_type(out, base.get())?;
            put_bounds(out, is_signed(base.get()), *first, *last)
        }
        TypeTree::Array(index, element) => {
            put_text(out, b"ARRAY ")?;
            put_type(out, index.get())?;
            put_text(out, b" OF ")?;
            put_type(out, element.get())
        }
        TypeTree::Record(_, fields) => {
            put_text(out, b"RECORD ")?;
            put_fields(out, fields.get().as_slice())
        }
    }
}

/// Fields, parameters or results, in brackets.
#[cycle(printing)]
pub(crate) fn put_fields(out: &mut Bytes, fields: &[FieldType]) -> Result<(), OutOfMemory>
    ensures { OnOk result (out.new ≡ out.old ++ spec.fields_text fields.now) }
{
    put_text(out, b"[")?;
    'fields: for i in 0..fields.len() {
        put_mark(out, b", ", i)?;
        put_field(out, &fields[i])?;
    }
    put_text(out, b"]")
}

#[cycle(printing)]
fn put_field(out: &mut Bytes, field: &FieldType) -> Result<(), OutOfMemory>
    ensures { OnOk result (out.new ≡ out.old ++ spec.field_text field.now) }
{
    put_label(out, &field.name)?;
    put_type(out, &field.kind)
}

/// The value of a constant, as its type has it.
pub(crate) fn put_value_of(out: &mut Bytes, constant: &Constant) -> Result<(), OutOfMemory>
    ensures { OnOk result (out.new ≡ out.old ++ spec.value_text constant.now.kind constant.now.value) }
{
    if is_long_signed(&constant.kind) {
        put_signed_long(out, constant.value)
    } else {
        put_value(out, is_signed(&constant.kind), constant.value)
    }
}
