//! Object files.
ghost use Rattle.std.specs.Prelude.{◌≡◌, ◌≢◌, ℕ, IfErr, IfOk, MatchResult, codes};
ghost use Rattle.file_forms.specs.Files.{versioned, FirstFault};
ghost use Rattle.file_forms.specs.Reads.{ReadsAs};
ghost use Rattle.mesa_base.specs.declared.file_fault.FileFault.TheVariants as file;
ghost use Rattle.object_files.specs.declared.object.Object.{Object as OneObject};
ghost use Rattle.object_readers.specs.Rows.{module_part, RowsFit};
ghost use Rattle.object_readers.specs.Whole.{versioned_part};
ghost use Rattle.object_rules.specs.Exact.{IsSameObject};
ghost use Rattle.object_rules.specs.ModuleForms.{module_form};
ghost use Rattle.object_rules.specs.ObjectFiles as form;
ghost use Rattle.object_rules.specs.declared.object_fault.ObjectFault.{ObjectFault as Fault};

use crate::bodies::module_rows;
use crate::building::object;
use file_forms::{FileCursor, Stopped, fault_at, opened};
use held_objects::ModuleRows;
use held_trees::LetGo;
use interface_readers::version;
use mesa_base::FileFault;
use object_files::Object;
use object_rules::ObjectFault;
use std::alloc::Global;

/// A fault of a file's form as one of an object's or image's file.
pub fn file_fault(fault: FileFault) -> ObjectFault
    ensures { result ≡ form.file_fault fault }
{
    match fault {
        FileFault::BadMagic => ObjectFault::BadMagic,
        FileFault::TooLong => ObjectFault::TooLong,
        FileFault::Cut(at) => ObjectFault::Cut(at),
        FileFault::BadField(at, field) => ObjectFault::BadField(at, field),
        FileFault::TrailingBytes(at) => ObjectFault::TrailingBytes(at),
        FileFault::Memory => ObjectFault::Memory,
    }
}

fn versioned(alloc: Global, input: &mut FileCursor<'_>) -> Result<(u8, ModuleRows), Stopped>
    ensures read { ReadsAs versioned_part ((versioned module_form).read input.old.rest.now) result input.new.rest.now }
    ensures whole { IfOk result (λ read. RowsFit read.1) }
{
    let version = version(input)?;
    let rows = module_rows(alloc, input, version)?;
    Ok((version, rows))
}

fn rows_in(alloc: Global, bytes: &[u8]) -> Result<ModuleRows, FileFault>
    ensures found { IfOk result (λ m. (version : ℕ) × form.IsModuleFile version (module_part m) bytes.now) }
    ensures whole { IfOk result RowsFit }
    ensures fault { IfErr result (λ e. e ≢ file.Memory → FirstFault (codes "MOB") module_form bytes.now e) }
{
    let mut input = match opened(bytes, b"MOB") {
        Ok(input) => input,
        Err(fault) => return Err(fault),
    };
    match versioned(alloc, &mut input) {
        Err(why) => Err(fault_at(bytes.len(), why)),
        Ok((_, rows)) => {
            let left = input.rest.len();
            if left > 0 {
                rows.let_go();
                return Err(FileFault::TrailingBytes((bytes.len() - left) as u64));
            }
            Ok(rows)
        }
    }
}

fn found(alloc: Global, bytes: &[u8]) -> Result<Object, ObjectFault>
    ensures found { IfOk result (λ o. (version : ℕ) × form.IsObjectFile version o bytes.now) }
    ensures fault { IfErr result (λ e. e ≢ ObjectFault.Memory → form.IsNoObjectFile bytes.now e) }
{
    match rows_in(alloc, bytes) {
        Ok(rows) => object(alloc, 0, rows),
        Err(fault) => Err(file_fault(fault)),
    }
}

/// The object that the bytes are a file of, in version 1 or 2. Else the first fault, with its offset: TooLong, BadMagic,
/// Cut, BadField or TrailingBytes; then Code, the first fault of its code; or Memory.
pub fn read_object(alloc: Global, bytes: &[u8]) -> Result<Object, ObjectFault>
    ensures found { IfOk result (λ o. (version : ℕ) × form.IsObjectFile version o bytes.now) }
    ensures fault { IfErr result (λ e. e ≢ ObjectFault.Memory → form.IsNoObjectFile bytes.now e) }
    ensures only { (version : ℕ) (o : OneObject) → form.IsObjectFile version o bytes.now → MatchResult result (λ p. IsSameObject p o) (λ e. e ≡ ObjectFault.Memory) }
    ensures first { (e : Fault) → form.IsNoObjectFile bytes.now e → MatchResult result (λ _. ⊥) (λ d. d ≢ ObjectFault.Memory → d ≡ e) }
{
    found(alloc, bytes)
}
