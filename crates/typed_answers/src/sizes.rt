//! The sizes of types: their elements, words, depths and longest enumerations, and the limits of these.

ghost use Rattle.std.specs.Prelude.{◌≡◌, ◌*◌, ◌↔◌, min, IsTrue};
ghost use Rattle.mesa_types.specs.Types.{words_of, words_of_fields, elements_of, depth_of, depth_of_fields, longest_of, longest_of_fields, IsWithinLimits};

use mesa_types::mesa_base::limits::{ENUMERATION_ELEMENTS, TYPE_DEPTH, TYPE_WORDS};
use mesa_types::{FieldType, TypeTree};

/// How many elements an array has with this index type; 0 for a type that is not ordinal.
pub fn elements(index: &TypeTree) -> usize
    ensures { result ≡ elements_of index.now }
{
    match index {
        TypeTree::Integer | TypeTree::Cardinal => 65536,
        TypeTree::Boolean => 2,
        TypeTree::Character => 256,
        TypeTree::Enumeration(_, names) => names.get().len(),
        TypeTree::Subrange(_, first, last) => usize::from(last.wrapping_sub(*first)) + 1,
        TypeTree::LongInteger
        | TypeTree::LongCardinal
        | TypeTree::String
        | TypeTree::Array(_, _)
        | TypeTree::Record(_, _) => 0,
    }
}

fn product(count: usize, words: u32) -> u32
    ensures { result ≡ min (count * words) 4294967295 }
{
    count.saturating_mul(words as usize).min(4294967295) as u32
}

/// The size of a type in words, or 4,294,967,295 where it is greater.
#[cycle(sizes)]
pub fn size_words(t: &TypeTree) -> u32
    ensures { result ≡ min (words_of t.now) 4294967295 }
{
    match t {
        TypeTree::LongInteger | TypeTree::LongCardinal | TypeTree::String => 2,
        TypeTree::Array(index, element) => product(
            elements(index.get()),
            size_words(element.get()),
        ),
        TypeTree::Record(_, fields) => fields_words(fields.get().as_slice()),
        _ => 1,
    }
}

/// The size in words of fields, parameters or results together, or 4,294,967,295 where it is greater.
#[cycle(sizes)]
pub fn fields_words(fields: &[FieldType]) -> u32
    ensures { result ≡ min (words_of_fields fields.now) 4294967295 }
{
    let mut words = 0u32;
    for field in fields {
        words = words.saturating_add(size_words(&field.kind));
    }
    words
}

/// How many types stand around each other, that type included, or 4,294,967,295 where they are more.
#[cycle(depths)]
pub fn depth(t: &TypeTree) -> u32
    ensures { result ≡ min (depth_of t.now) 4294967295 }
{
    match t {
        TypeTree::Subrange(of, _, _) => depth(of.get()).saturating_add(1),
        TypeTree::Array(index, element) => {
            depth(index.get())
                .max(depth(element.get()))
                .saturating_add(1)
        }
        TypeTree::Record(_, fields) => fields_depth(fields.get().as_slice()).saturating_add(1),
        _ => 1,
    }
}

#[cycle(depths)]
fn fields_depth(fields: &[FieldType]) -> u32
    ensures { result ≡ min (depth_of_fields fields.now) 4294967295 }
{
    let mut deepest = 0u32;
    for field in fields {
        deepest = deepest.max(depth(&field.kind));
    }
    deepest
}

/// How many names the longest enumeration has that is the type or stands in it.
#[cycle(longest)]
pub fn longest_enumeration(t: &TypeTree) -> usize
    ensures { result ≡ longest_of t.now }
{
    match t {
        TypeTree::Enumeration(_, names) => names.get().len(),
        TypeTree::Subrange(of, _, _) => longest_enumeration(of.get()),
        TypeTree::Array(index, element) => {
            longest_enumeration(index.get()).max(longest_enumeration(element.get()))
        }
        TypeTree::Record(_, fields) => fields_longest(fields.get().as_slice()),
        _ => 0,
    }
}

#[cycle(longest)]
fn fields_longest(fields: &[FieldType]) -> usize
    ensures { result ≡ longest_of_fields fields.now }
{
    let mut longest = 0usize;
    for field in fields {
        longest = longest.max(longest_enumeration(&field.kind));
    }
    longest
}

/// Whether a type has at most 16,384 words, is at most 64 deep, and each enumeration in it has at most 65,536 names.
pub fn is_within_limits(t: &TypeTree) -> bool
    ensures { IsTrue result ↔ IsWithinLimits t.now }
{
    size_words(t) <= TYPE_WORDS
        && depth(t) <= TYPE_DEPTH
        && longest_enumeration(t) <= ENUMERATION_ELEMENTS as usize
}
