//! Which texts have a stale object.

ghost use Rattle.std.specs.Prelude.{◌≡◌, ◌≤◌, map, IfOk};
ghost use Rattle.std.specs.List.{list_any};
ghost use Rattle.mesa_types.specs.declared.faces.Export.{Export as Exported};
ghost use Rattle.mesa_types.specs.declared.faces.Import.{Import as Imported};
ghost use Rattle.include_rules.specs.Plans.{most_texts};
ghost use Rattle.include_rules.specs.Stale.{faced, faces_of, is_made_old, is_old, is_other, is_stale, stale, stamp_of};
ghost use Rattle.include_checker.specs.Stamps.{stamp_under};

use include_rules::FileEntry;
use mesa_base::{List, Numbers, OutOfMemory, Stamp};
use mesa_types::{Export, Face, Import, Shape};
use std::alloc::Global;

fn stamp_under(file: &FileEntry, name: &[u8]) -> Option<Stamp>
    ensures { result ≡ stamp_under (faced file.now) name.now }
{
    match file {
        FileEntry::Interface(interface) if interface.face.name.bytes() == name => {
            Some(interface.face.stamp)
        }
        _ => None,
    }
}

// The stamp of the first interface of this name.
fn stamp_of(files: &[FileEntry], name: &[u8]) -> Option<Stamp>
    ensures { result ≡ stamp_of (map faced files.now) name.now }
{
    for file in files {
        if let Some(stamp) = stamp_under(file, name) {
            return Some(stamp);
        }
    }
    None
}

fn is_other(found: Option<Stamp>, stamp: Stamp) -> bool
    ensures { result ≡ is_other found stamp }
{
    match found {
        Some(found) => found.number() != stamp.number(),
        None => false,
    }
}

fn is_old(files: &[FileEntry], face: &Face) -> bool
    ensures { result ≡ is_old (map faced files.now) face.now }
{
    let name = face.name.bytes();
    name != b"IODefs".as_slice() && is_other(stamp_of(files, name), face.stamp)
}

fn has_old_import(files: &[FileEntry], imports: &[Import]) -> bool
    ensures { result ≡ list_any (λ (m : Imported). is_old (map faced files.now) m.face) imports.now }
{
    imports.iter().any(|import| is_old(files, &import.face))
}

fn has_old_export(files: &[FileEntry], exports: &[Export]) -> bool
    ensures { result ≡ list_any (λ (x : Exported). is_old (map faced files.now) x.face) exports.now }
{
    exports.iter().any(|export| is_old(files, &export.face))
}

fn has_old_face(files: &[FileEntry], shape: &Shape) -> bool
    ensures { result ≡ list_any (is_old (map faced files.now)) (faces_of shape.now) }
{
    has_old_import(files, shape.imports.as_slice())
        || has_old_export(files, shape.exports.as_slice())
}

fn is_made_old(files: &[FileEntry], text: u32, file: &FileEntry) -> bool
    ensures { result ≡ is_made_old (map faced files.now) text (faced file.now) }
{
    match file {
        FileEntry::Interface(_) => false,
        FileEntry::Object(number, object) => {
            *number == text && has_old_face(files, &object.shape)
        }
    }
}

fn is_stale(files: &[FileEntry], text: u32) -> bool
    ensures { result ≡ is_stale (map faced files.now) text }
{
    files.iter().any(|file| is_made_old(files, text, file))
}

/// Those of so many texts that have a stale object, ascending.
pub fn stale(alloc: Global, texts: usize, files: &[FileEntry]) -> Result<Numbers, OutOfMemory>
    requires { texts ≤ most_texts }
    ensures { IfOk result (λ numbers. numbers ≡ stale texts (map faced files.now)) }
{
    let mut numbers = List::new(alloc);
    for text in 0..texts as u32 {
        if is_stale(files, text) {
            numbers.push(text)?;
        }
    }
    Ok(numbers)
}
