//! Lines, word by word.
ghost use Rattle.std.specs.Prelude.{◌≡◌, ◌∷◌, ◌++◌, flat_map, map, OnOk};
ghost use Rattle.listing_rules.specs.Lines.{line};
ghost use Rattle.listing_writers.specs.Words.{text_of, after_blank};

use crate::digits::{put_offset, put_stamp};
use crate::labels::put_labels;
use crate::names::{put_item_at, put_item_of, put_path, put_path_at, put_signal_word};
use crate::texts::{put_name, put_number, put_text};
use crate::types::{put_fields, put_type, put_value_of};
use code_forms::{CodeKind, Instruction, Labels};
use interface_records::{Constant, Wanted};
use mesa_base::{Bytes, Name, OutOfMemory, Path, Stamp};
use mesa_types::{Fields, Items, TypeTree};
use object_files::Instances;

/// A word of a line.
#[derive(Clone, Copy)]
pub(crate) enum Word<'a> {
    Text(&'a str),
    Name(&'a Name),
    Number(u64),
    Offset(u32),
    Stamp(&'a Stamp),
    Type(&'a TypeTree),
    Fields(&'a Fields),
    /// The value of a constant.
    ValueOf(&'a Constant),
    /// The name of the item of this number.
    ItemAt(&'a Items, u32),
    /// The name of an item that is wanted, behind that of its interface.
    ItemOf(&'a Wanted),
    /// The name of an instruction.
    Operation(Instruction),
    SignalKind(CodeKind),
    /// The length of a string.
    LengthOf(&'a Bytes),
    Labels(&'a Labels),
    Path(&'a Path),
    /// The path of the instance of this number.
    PathAt(&'a Instances, u32),
}

fn put_word(out: &mut Bytes, word: &Word<'_>) -> Result<(), OutOfMemory>
    ensures { OnOk result (out.new ≡ out.old ++ text_of word.now) }
{
    match *word {
        Word::Text(text) => put_text(out, text.as_bytes()),
        Word::Name(name) => put_name(out, name),
        Word::Number(number) => put_number(out, number),
        Word::Offset(offset) => put_offset(out, offset),
        Word::Stamp(stamp) => put_stamp(out, *stamp),
        Word::Type(t) => put_type(out, t),
        Word::Fields(fields) => put_fields(out, fields.as_slice()),
        Word::ValueOf(constant) => put_value_of(out, constant),
        Word::ItemAt(items, number) => put_item_at(out, items, number),
        Word::ItemOf(wanted) => put_item_of(out, wanted),
        Word::Operation(instruction) => put_text(out, instruction.name().as_bytes()),
        Word::SignalKind(kind) => put_signal_word(out, kind),
        Word::LengthOf(string) => put_number(out, string.len() as u64),
        Word::Labels(labels) => put_labels(out, labels),
        Word::Path(path) => put_path(out, path.as_slice()),
        Word::PathAt(instances, number) => put_path_at(out, instances, number),
    }
}

fn put_after_blank(out: &mut Bytes, word: &Word<'_>) -> Result<(), OutOfMemory>
    ensures { OnOk result (out.new ≡ out.old ++ after_blank word.now) }
{
    put_text(out, b" ")?;
    put_word(out, word)
}

fn put_others(out: &mut Bytes, words: &[Word<'_>]) -> Result<(), OutOfMemory>
    ensures { OnOk result (out.new ≡ out.old ++ flat_map after_blank words.now) }
{
    'words: for word in words {
        put_after_blank(out, word)?;
    }
    Ok(())
}

/// A line: its first word, and the others.
pub(crate) fn put_line(
    out: &mut Bytes,
    first: &Word<'_>,
    others: &[Word<'_>],
) -> Result<(), OutOfMemory>
    ensures { OnOk result (out.new ≡ out.old ++ line (text_of first.now ∷ map text_of others.now)) }
{
    put_word(out, first)?;
    put_others(out, others)?;
    put_text(out, b"\n")
}
