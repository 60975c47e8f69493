//! The files of objects, one after the other.
ghost use Rattle.std.specs.Prelude.{◌≡◌, [], ◌∷◌, ◌++◌, length, All, IfOk, IfErr, OnOk};
ghost use Rattle.std.specs.List.{AllZip};
ghost use Rattle.program_files.specs.declared.size_fault.SizeFault.TheVariants.{Memory};
ghost use Rattle.program_files.specs.Objects.{CanBeFiled, HasFile, IsOneMore, IsFaultOf, IsFaultAmong};

use crate::one_object::object_file;
use crate::size_fault::{SizeFault, fault_of};
use mesa_base::{Bytes, List, Texts};
use object_files::Object;
use std::alloc::Global;

fn put(files: &mut Texts, file: Bytes) -> Result<(), SizeFault>
    ensures ok { OnOk result (files.new ≡ files.old ++ file ∷ []) }
    ensures fault { IfErr result (λ fault. fault ≡ Memory) }
{
    match files.push(file) {
        Ok(()) => Ok(()),
        Err(_) => Err(SizeFault::Memory),
    }
}

/// Puts the file of an object behind those of the objects before it.
fn put_file(alloc: Global, object: &Object, files: &mut Texts) -> Result<(), SizeFault>
    requires { CanBeFiled object.now }
    ensures ok { OnOk result (IsOneMore object.now files.old files.new) }
    ensures fault { IfErr result (IsFaultOf object.now (length files.old)) }
{
    match object_file(alloc, object) {
        Ok(file) => put(files, file),
        Err(fault) => Err(fault_of(fault, SizeFault::Object(files.len()))),
    }
}

fn put_files(alloc: Global, objects: &[Object], files: &mut Texts) -> Result<(), SizeFault>
    requires filed { All CanBeFiled objects.now }
    requires empty { files.old ≡ [] }
    ensures ok { OnOk result (AllZip HasFile objects.now files.new) }
    ensures fault { IfErr result (IsFaultAmong objects.now) }
{
    for object in objects {
        put_file(alloc, object, files)?;
    }
    Ok(())
}

/// The files of objects of modules that can be kept, in order; or the first that is too large.
pub fn object_files(alloc: Global, objects: &[Object]) -> Result<Texts, SizeFault>
    requires { All CanBeFiled objects.now }
    ensures ok { IfOk result (λ files. AllZip HasFile objects.now files) }
    ensures fault { IfErr result (IsFaultAmong objects.now) }
{
    let mut files = List::new(alloc);
    put_files(alloc, objects, &mut files)?;
    Ok(files)
}
