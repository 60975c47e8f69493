//! The words that are values of an ordinal type, and the numbers that are values of a LONG type.
ghost use Rattle.std.specs.Prelude.{◌≡◌};
ghost use Rattle.face_rules.specs.Layers.{holds, in_order, signed_le, signed_long_le};
ghost use Rattle.face_rules.specs.TypeForms as form;
ghost use Rattle.file_forms.specs.Reads.{Reads};

use file_forms::{FileCursor, Stopped};
use mesa_base::Field;
use mesa_types::TypeTree;

fn signed_le(a: u32, b: u32) -> bool
    ensures { result ≡ signed_le a b }
{
    (u64::from(a) + 32768) % 65536 <= (u64::from(b) + 32768) % 65536
}

fn signed_long_le(a: u32, b: u32) -> bool
    ensures { result ≡ signed_long_le a b }
{
    (u64::from(a) + 2147483648) % 4294967296 <= (u64::from(b) + 2147483648) % 4294967296
}

/// Whether the first number comes before the second in the type's order, or is the second.
pub fn in_order(t: &TypeTree, a: u32, b: u32) -> bool
    ensures { result ≡ in_order t.now a b }
{
    match t {
        TypeTree::Integer => signed_le(a, b),
        TypeTree::LongInteger => signed_long_le(a, b),
        TypeTree::Subrange(base, _, _) => in_order(base.get(), a, b),
        _ => a <= b,
    }
}

/// Whether the number is a value of the type.
pub fn holds(t: &TypeTree, value: u32) -> bool
    ensures { result ≡ holds t.now value }
{
    match t {
        TypeTree::Integer | TypeTree::LongInteger | TypeTree::LongCardinal => true,
        TypeTree::Cardinal => value < 65536,
        TypeTree::Boolean => value < 2,
        TypeTree::Character => value < 256,
        TypeTree::Enumeration(_, names) => (value as usize) < names.get().len(),
        TypeTree::Subrange(base, first, last) => {
            holds(base.get(), value)
                && in_order(base.get(), u32::from(*first), value)
                && in_order(base.get(), value, u32::from(*last))
        }
        TypeTree::String | TypeTree::Array(_, _) | TypeTree::Record(_, _) => false,
    }
}

/// The first value of a subrange of the type, and the last. Number: it is no value of the type, or the last is below the
/// first.
#[tactic(auto, unfolding(face_rules::specs::TypeForms::bounds))]
pub fn bounds(input: &mut FileCursor<'_>, base: &TypeTree) -> Result<(u16, u16), Stopped>
    ensures { Reads ((form.bounds base.now).read input.old.rest.now) result input.new.rest.now }
{
    let left = input.rest.len();
    let first = input.u16()?;
    if !holds(base, u32::from(first)) {
        return Err(Stopped::Bad(Field::Number, left));
    }
    let left = input.rest.len();
    let last = input.u16()?;
    if !holds(base, u32::from(last)) || !in_order(base, u32::from(first), u32::from(last)) {
        return Err(Stopped::Bad(Field::Number, left));
    }
    Ok((first, last))
}
