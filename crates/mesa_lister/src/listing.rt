//! The listing of a file of any kind.
ghost use Rattle.std.specs.Prelude.{◌≡◌, ◌≢◌, ℕ, List, IfErr, IfOk};
ghost use Rattle.listed_files.specs.Listings.{IsListing, HasFault};
ghost use Rattle.object_rules.specs.declared.object_fault.ObjectFault.{ObjectFault as Fault};

use crate::reading::{list_image, list_interface, list_object};
use listed_files::FileKind;
use mesa_base::Bytes;
use object_rules::ObjectFault;
use std::alloc::Global;

fn listed(alloc: Global, bytes: &[u8], kind: FileKind) -> Result<Bytes, ObjectFault>
    ensures found { IfOk result (IsListing kind bytes.now) }
    ensures fault { IfErr result (λ e. e ≢ ObjectFault.Memory → HasFault kind bytes.now e) }
{
    match kind {
        FileKind::Interface => list_interface(alloc, bytes),
        FileKind::Object => list_object(alloc, bytes),
        FileKind::Image => list_image(alloc, bytes),
    }
}

/// The listing of the interface, the object or the image that the bytes are a file of, in version 1 or 2. Else the first
/// fault of the bytes as a file of this kind, with its offset, as the readers have it; or Memory.
pub fn list(alloc: Global, bytes: &[u8], kind: FileKind) -> Result<Bytes, ObjectFault>
    ensures found { IfOk result (IsListing kind bytes.now) }
    ensures fault { IfErr result (λ e. e ≢ ObjectFault.Memory → HasFault kind bytes.now e) }
    ensures only { (text : List ℕ) → IsListing kind bytes.now text → result ≢ Err ObjectFault.Memory → result ≡ Ok text }
    ensures first { (e : Fault) → HasFault kind bytes.now e → result ≢ Err ObjectFault.Memory → result ≡ Err e }
{
    listed(alloc, bytes, kind)
}
