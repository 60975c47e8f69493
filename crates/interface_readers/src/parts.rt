//! Parts of interface files, read from an offset on, whatever follows them.
ghost use Rattle.std.specs.Prelude.{◌≡◌, ◌≤◌, length, IsTrue};
ghost use Rattle.face_rules.specs.FaceForms as form;
ghost use Rattle.file_forms.specs.Files.{is_version};
ghost use Rattle.file_forms.specs.Names as names;
ghost use Rattle.interface_readers.specs.Parts.{ReadsAt};

use crate::faces::{face, item};
use file_forms::{FileCursor, Seen, fault_at};
use mesa_base::{FileFault, Name};
use mesa_types::{Face, Item};
use std::alloc::Global;

/// The name that begins at the offset, and the offset behind it. Else the first fault, with its offset in all the bytes: Cut or
/// BadField; or Memory.
pub fn read_name(alloc: Global, bytes: &[u8], at: usize) -> Result<(Name, usize), FileFault>
    requires { at ≤ length bytes.now }
    ensures { ReadsAt names.name bytes.now at result }
{
    let mut input = FileCursor { rest: &bytes[at..] };
    match input.name(alloc) {
        Ok(name) => Ok((name, bytes.len() - input.rest.len())),
        Err(why) => Err(fault_at(bytes.len(), why)),
    }
}

/// The item that begins at the offset, by the rules of that version, and the offset behind it. Else the first fault, with its offset
/// in all the bytes: Cut or BadField; or Memory.
pub fn read_item(
    alloc: Global,
    bytes: &[u8],
    at: usize,
    version: u8,
) -> Result<(Item, usize), FileFault>
    requires within { at ≤ length bytes.now }
    requires known { IsTrue (is_version version) }
    ensures { ReadsAt (form.item version) bytes.now at result }
{
    let mut input = FileCursor { rest: &bytes[at..] };
    match item(alloc, &mut input, version) {
        Ok(item) => Ok((item, bytes.len() - input.rest.len())),
        Err(why) => Err(fault_at(bytes.len(), why)),
    }
}

/// The face that begins at the offset, by the rules of that version, and the offset behind it. Else the first fault, with its offset
/// in all the bytes: Cut or BadField; or Memory.
pub fn read_face(
    alloc: Global,
    bytes: &[u8],
    at: usize,
    version: u8,
) -> Result<(Face, usize), FileFault>
    requires within { at ≤ length bytes.now }
    requires known { IsTrue (is_version version) }
    ensures { ReadsAt (form.face version) bytes.now at result }
{
    let mut seen = Seen::new(alloc);
    let mut input = FileCursor { rest: &bytes[at..] };
    match face(alloc, &mut input, version, &mut seen) {
        Ok(face) => Ok((face, bytes.len() - input.rest.len())),
        Err(why) => Err(fault_at(bytes.len(), why)),
    }
}
