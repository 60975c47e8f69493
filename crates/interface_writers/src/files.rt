//! Interface files, and parts of them by themselves.
ghost use Rattle.std.specs.Prelude.{◌≡◌, ◌≢◌, ◌↔◌, ◌<◌, length, Err, Some, [], IfOk, OnOk};
ghost use Rattle.mesa_base.specs.declared.limits.TheConstants.{FILE_BYTES};
ghost use Rattle.mesa_base.specs.declared.file_fault.WriteFault.TheVariants as fault;
ghost use Rattle.file_forms.specs.Written.{appended};
ghost use Rattle.face_rules.specs.FaceForms as part;
ghost use Rattle.face_rules.specs.InterfaceForms as form;
ghost use Rattle.interface_writers.specs.Whole.{interface_file};

use crate::faces::{put_face, put_item};
use crate::interfaces::put_interface;
use file_forms::FileWriter;
use interface_records::Interface;
use mesa_base::{Bytes, OutOfMemory, WriteFault};
use mesa_types::{Face, Item};
use std::alloc::Global;

const VERSION: u8 = 2;

#[tactic(auto, using(file_forms::proofs::WrittenLaws::appended_twice))]
fn put_file(out: &mut FileWriter, interface: &Interface) -> Result<(), OutOfMemory>
    requires { (form.interface 2).fits interface.now }
    ensures { OnOk result (out.new ≡ appended out.old (interface_file interface.now)) }
{
    out.raw(b"MIF")?;
    out.u8(VERSION)?;
    put_interface(out, interface)
}

/// The file of the interface, in version 2. TooLarge, want of memory aside, exactly where the file would have more than
/// 536,870,912 bytes; then it ends soon, and none of the bytes are kept, also where the interface spells far more.
pub fn write_interface(alloc: Global, interface: &Interface) -> Result<Bytes, WriteFault>
    requires { (form.interface 2).fits interface.now }
    ensures ok { IfOk result (λ bytes. form.IsInterfaceFile 2 interface.now bytes) }
    ensures too_large { result ≢ Err fault.Memory → (result ≡ Err fault.TooLarge ↔ FILE_BYTES < length (interface_file interface.now)) }
{
    let mut out = FileWriter::new(alloc);
    match put_file(&mut out, interface) {
        Ok(()) => out.into_bytes(),
        Err(_) => Err(WriteFault::Memory),
    }
}

fn whole(out: FileWriter) -> Result<Bytes, OutOfMemory>
    ensures { IfOk result (λ bytes. out ≡ Some bytes) }
{
    match out.into_bytes() {
        Ok(bytes) => Ok(bytes),
        Err(_) => Err(OutOfMemory),
    }
}

/// The spelling of the item in version 2. Want of memory also where that has more than 536,870,912 bytes.
pub fn write_item(alloc: Global, item: &Item) -> Result<Bytes, OutOfMemory>
    requires { (part.item 2).fits item.now }
    ensures { IfOk result (λ bytes. bytes ≡ (part.item 2).spell item.now) }
{
    let mut out = FileWriter::new(alloc);
    put_item(&mut out, item)?;
    whole(out)
}

/// The spelling of the face in version 2. Want of memory also where that has more than 536,870,912 bytes.
pub fn write_face(alloc: Global, face: &Face) -> Result<Bytes, OutOfMemory>
    requires { (part.face 2).fits face.now }
    ensures { IfOk result (λ bytes. bytes ≡ (part.face 2).spell face.now) }
{
    let mut out = FileWriter::new(alloc);
    put_face(&mut out, face)?;
    whole(out)
}
