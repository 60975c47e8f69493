//! Object and image files.
ghost use Rattle.std.specs.Prelude.{◌≡◌, ◌≢◌, ◌↔◌, ◌<◌, ◌++◌, length, All, Err, IfOk, OnOk, codes};
ghost use Rattle.mesa_base.specs.declared.limits.TheConstants.{FILE_BYTES};
ghost use Rattle.mesa_base.specs.declared.file_fault.WriteFault.TheVariants as fault;
ghost use Rattle.file_forms.specs.Written.{appended};
ghost use Rattle.object_rules.specs.ImageFiles.{IsImageFile};
ghost use Rattle.object_rules.specs.ImageForms.{parts_of_image, image_form};
ghost use Rattle.object_rules.specs.ModuleForms.{module_form};
ghost use Rattle.object_rules.specs.ObjectFiles.{IsObjectFile};
ghost use Rattle.object_rules.specs.Parts.{parts_of, IsWhole};
ghost use Rattle.object_writers.specs.ObjectBytes.{ModuleFits, module_bytes, ImageFits, image_bytes, object_file, image_file};
ghost use Rattle.object_writers.specs.Spelling.{u8_bytes};

use crate::images::put_image;
use crate::put::Put;
use file_forms::FileWriter;
use mesa_base::{Bytes, OutOfMemory, WriteFault};
use object_files::{Image, Object};
use std::alloc::Global;

const VERSION: u8 = 2;

#[tactic(auto, using(file_forms::proofs::WrittenLaws::appended_twice))]
fn put_object_file(out: &mut FileWriter, object: &Object) -> Result<(), OutOfMemory>
    requires { ModuleFits object.now }
    ensures { OnOk result (out.new ≡ appended out.old (codes "MOB" ++ (u8_bytes 2 ++ module_bytes object.now))) }
{
    out.raw(b"MOB")?;
    out.u8(VERSION)?;
    object.put(out)
}

#[tactic(auto, using(file_forms::proofs::WrittenLaws::appended_twice))]
fn put_image_file(out: &mut FileWriter, image: &Image) -> Result<(), OutOfMemory>
    requires { ImageFits image.now }
    ensures { OnOk result (out.new ≡ appended out.old (codes "MIM" ++ (u8_bytes 2 ++ image_bytes image.now))) }
{
    out.raw(b"MIM")?;
    out.u8(VERSION)?;
    put_image(out, image)
}

/// The file of the object, in version 2. TooLarge, want of memory aside, exactly where the file would have more than
/// 536,870,912 bytes; then it ends soon, and none of the bytes are kept.
pub fn write_object(alloc: Global, object: &Object) -> Result<Bytes, WriteFault>
    requires fits { (module_form 2).fits (parts_of object.now) }
    requires whole { IsWhole object.now }
    ensures ok { IfOk result (λ bytes. IsObjectFile 2 object.now bytes) }
    ensures too_large { result ≢ Err fault.Memory → (result ≡ Err fault.TooLarge ↔ FILE_BYTES < length (object_file object.now)) }
{
    let mut out = FileWriter::new(alloc);
    match put_object_file(&mut out, object) {
        Ok(()) => out.into_bytes(),
        Err(_) => Err(WriteFault::Memory),
    }
}

/// The file of the image, in version 2. TooLarge, want of memory aside, exactly where the file would have more than
/// 536,870,912 bytes; then it ends soon, and none of the bytes are kept.
pub fn write_image(alloc: Global, image: &Image) -> Result<Bytes, WriteFault>
    requires fits { (image_form 2).fits (parts_of_image image.now) }
    requires whole { All IsWhole image.now.modules }
    ensures ok { IfOk result (λ bytes. IsImageFile 2 image.now bytes) }
    ensures too_large { result ≢ Err fault.Memory → (result ≡ Err fault.TooLarge ↔ FILE_BYTES < length (image_file image.now)) }
{
    let mut out = FileWriter::new(alloc);
    match put_image_file(&mut out, image) {
        Ok(()) => out.into_bytes(),
        Err(_) => Err(WriteFault::Memory),
    }
}
