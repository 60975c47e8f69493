//! Image files.
ghost use Rattle.std.specs.Prelude.{◌≡◌, ◌≢◌, ℕ, All, IfErr, IfOk, MatchResult, codes};
ghost use Rattle.file_forms.specs.Files.{versioned, FirstFault};
ghost use Rattle.file_forms.specs.Reads.{ReadsAs};
ghost use Rattle.image_readers.specs.Rows.{image_part};
ghost use Rattle.image_readers.specs.Whole.{versioned_part};
ghost use Rattle.mesa_base.specs.declared.file_fault.FileFault.TheVariants as file;
ghost use Rattle.object_files.specs.declared.image.Image.{Image as OneImage};
ghost use Rattle.object_readers.specs.Rows.{RowsFit};
ghost use Rattle.object_rules.specs.Exact.{IsSameImage};
ghost use Rattle.object_rules.specs.ImageFiles as form;
ghost use Rattle.object_rules.specs.ImageForms.{image_form};
ghost use Rattle.object_rules.specs.declared.object_fault.ObjectFault.{ObjectFault as Fault};

use crate::building::image;
use crate::image_rows::{ImageRows, image_rows};
use file_forms::{FileCursor, Stopped, fault_at, opened};
use held_trees::LetGo;
use mesa_base::FileFault;
use object_files::Image;
use object_readers::file_fault;
use object_readers::interface_readers::version;
use object_rules::ObjectFault;
use std::alloc::Global;

fn versioned(alloc: Global, input: &mut FileCursor<'_>) -> Result<(u8, ImageRows), Stopped>
    ensures read { ReadsAs versioned_part ((versioned image_form).read input.old.rest.now) result input.new.rest.now }
    ensures whole { IfOk result (λ read. All RowsFit read.1.head.modules) }
{
    let version = version(input)?;
    let rows = image_rows(alloc, input, version)?;
    Ok((version, rows))
}

fn rows_in(alloc: Global, bytes: &[u8]) -> Result<ImageRows, FileFault>
    ensures found { IfOk result (λ r. (version : ℕ) × form.IsLinkedFile version (image_part r) bytes.now) }
    ensures whole { IfOk result (λ r. All RowsFit r.head.modules) }
    ensures fault { IfErr result (λ e. e ≢ file.Memory → FirstFault (codes "MIM") image_form bytes.now e) }
{
    let mut input = match opened(bytes, b"MIM") {
        Ok(input) => input,
        Err(fault) => return Err(fault),
    };
    match versioned(alloc, &mut input) {
        Err(why) => Err(fault_at(bytes.len(), why)),
        Ok((_, rows)) => {
            let left = input.rest.len();
            if left > 0 {
                rows.let_go();
                return Err(FileFault::TrailingBytes((bytes.len() - left) as u64));
            }
            Ok(rows)
        }
    }
}

fn found(alloc: Global, bytes: &[u8]) -> Result<Image, ObjectFault>
    ensures found { IfOk result (λ i. (version : ℕ) × form.IsImageFile version i bytes.now) }
    ensures fault { IfErr result (λ e. e ≢ ObjectFault.Memory → form.IsNoImageFile bytes.now e) }
{
    match rows_in(alloc, bytes) {
        Ok(rows) => image(alloc, rows),
        Err(fault) => Err(file_fault(fault)),
    }
}

/// The image that the bytes are a file of, in version 1 or 2. Else the first fault, with its offset: TooLong, BadMagic,
/// Cut, BadField or TrailingBytes; then Code, the first module with a fault of its code; or Memory.
pub fn read_image(alloc: Global, bytes: &[u8]) -> Result<Image, ObjectFault>
    ensures found { IfOk result (λ i. (version : ℕ) × form.IsImageFile version i bytes.now) }
    ensures fault { IfErr result (λ e. e ≢ ObjectFault.Memory → form.IsNoImageFile bytes.now e) }
    ensures only { (version : ℕ) (i : OneImage) → form.IsImageFile version i bytes.now → MatchResult result (λ j. IsSameImage j i) (λ e. e ≡ ObjectFault.Memory) }
    ensures first { (e : Fault) → form.IsNoImageFile bytes.now e → MatchResult result (λ _. ⊥) (λ d. d ≢ ObjectFault.Memory → d ≡ e) }
{
    found(alloc, bytes)
}
