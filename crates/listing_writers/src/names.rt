//! Names of items and kinds, and paths of instances.
ghost use Rattle.std.specs.Prelude.{◌≡◌, ◌++◌, codes, OnOk};
ghost use Rattle.line_pieces.specs.Texts.{path_text};
ghost use Rattle.listing_rules.specs.Code.{signal_word};
ghost use Rattle.listing_rules.specs.Images.{path_at};
ghost use Rattle.listing_rules.specs.Objects.{item_name};

use crate::texts::{put_name, put_names, put_text};
use code_forms::CodeKind;
use interface_records::Wanted;
use mesa_base::{Bytes, Name, OutOfMemory};
use mesa_types::Items;
use object_files::Instances;

/// The name of the item of this number.
pub(crate) fn put_item_at(out: &mut Bytes, items: &Items, number: u32) -> Result<(), OutOfMemory>
    ensures { OnOk result (out.new ≡ out.old ++ item_name items.now number) }
{
    match items.get(number as usize) {
        Some(item) => put_name(out, &item.name),
        None => Ok(()),
    }
}

/// The name of the item, behind that of its interface.
pub(crate) fn put_item_of(out: &mut Bytes, wanted: &Wanted) -> Result<(), OutOfMemory>
    ensures { OnOk result (out.new ≡ out.old ++ (wanted.now.face ++ (codes "." ++ wanted.now.item.name))) }
{
    put_name(out, &wanted.face)?;
    put_text(out, b".")?;
    put_name(out, &wanted.item.name)
}

/// A path, with dots between its names.
pub(crate) fn put_path(out: &mut Bytes, path: &[Name]) -> Result<(), OutOfMemory>
    ensures { OnOk result (out.new ≡ out.old ++ path_text path.now) }
{
    put_names(out, b".", path)
}

/// The path of the instance of this number.
pub(crate) fn put_path_at(
    out: &mut Bytes,
    instances: &Instances,
    number: u32,
) -> Result<(), OutOfMemory>
    ensures { OnOk result (out.new ≡ out.old ++ path_at instances.now number) }
{
    match instances.get(number as usize) {
        Some(instance) => put_path(out, instance.path.as_slice()),
        None => Ok(()),
    }
}

/// A signal or an error.
pub(crate) fn put_signal_word(out: &mut Bytes, kind: CodeKind) -> Result<(), OutOfMemory>
    ensures { OnOk result (out.new ≡ out.old ++ signal_word kind) }
{
    match kind {
        CodeKind::Error => put_text(out, b"ERROR"),
        CodeKind::Procedure => put_text(out, b"SIGNAL"),
        CodeKind::Signal => put_text(out, b"SIGNAL"),
    }
}
