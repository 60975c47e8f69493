//! Texts, one behind the other, and lists of what has one.
ghost use Rattle.std.specs.Prelude.{◌≡◌, ℕ, ◌++◌, List, map, flat_map, decimal, OnOk};
ghost use Rattle.listing_rules.specs.Lines.{between};
ghost use Rattle.listing_writers.specs.Marks.{mark_before};

use mesa_base::{Bytes, Decimal, Name, OutOfMemory};

/// What has a text in a listing.
pub(crate) trait Listed {
    ghost text: { Self → List ℕ };

    /// Puts its text behind the others.
    fn put(&self, out: &mut Bytes) -> Result<(), OutOfMemory>
        ensures { OnOk result (out.new ≡ out.old ++ text self.now) };
}

impl Listed for Name {
    ghost text = { λ name. name };

    fn put(&self, out: &mut Bytes) -> Result<(), OutOfMemory> {
        put_name(out, self)
    }
}

pub(crate) fn put_text(out: &mut Bytes, text: &[u8]) -> Result<(), OutOfMemory>
    ensures { OnOk result (out.new ≡ out.old ++ text.now) }
{
    out.extend_from_slice(text)
}

pub(crate) fn put_name(out: &mut Bytes, name: &Name) -> Result<(), OutOfMemory>
    ensures { OnOk result (out.new ≡ out.old ++ name.now) }
{
    put_text(out, name.bytes())
}

/// A number in decimal digits.
pub(crate) fn put_number(out: &mut Bytes, number: u64) -> Result<(), OutOfMemory>
    ensures { OnOk result (out.new ≡ out.old ++ decimal number) }
{
    put_text(out, Decimal::of(number).as_bytes())
}

/// The mark that stands before the part of this number: none before the first.
#[tactic(auto, using(crate::proofs::Turns::unmarked, crate::proofs::Turns::marked))]
pub(crate) fn put_mark(out: &mut Bytes, mark: &[u8], at: usize) -> Result<(), OutOfMemory>
    ensures { OnOk result (out.new ≡ out.old ++ mark_before mark.now at) }
{
    if at == 0 {
        return Ok(());
    }
    put_text(out, mark)
}

/// Parts, one behind the other.
pub(crate) fn put_each<T: Listed>(out: &mut Bytes, parts: &[T]) -> Result<(), OutOfMemory>
    ensures { OnOk result (out.new ≡ out.old ++ flat_map T.text parts.now) }
{
    'parts: for part in parts {
        part.put(out)?;
    }
    Ok(())
}

/// Parts with the mark between them.
pub(crate) fn put_between<T: Listed>(
    out: &mut Bytes,
    mark: &[u8],
    parts: &[T],
) -> Result<(), OutOfMemory>
    ensures { OnOk result (out.new ≡ out.old ++ between mark.now (map T.text parts.now)) }
{
    'parts: for i in 0..parts.len() {
        put_mark(out, mark, i)?;
        parts[i].put(out)?;
    }
    Ok(())
}

/// Names with the mark between them.
pub(crate) fn put_names(out: &mut Bytes, mark: &[u8], names: &[Name]) -> Result<(), OutOfMemory>
    ensures { OnOk result (out.new ≡ out.old ++ between mark.now names.now) }
{
    put_between(out, mark, names)
}
