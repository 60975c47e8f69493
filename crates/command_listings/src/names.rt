//! The names of files that are listed or upgraded.

ghost use Rattle.std.specs.Prelude.{◌≡◌, IfOk};
ghost use Rattle.std.specs.Str.{IsAscii};
ghost use Rattle.command_passes.specs.command_rules.specs.Forms.{kind_file};
ghost use Rattle.command_passes.specs.Kinds.{kind_in};

use command_passes::{FileName, file_named};
use listed_files::FileKind;
use mesa_base::OutOfMemory;
use std::alloc::Global;

/// The name of the file of this base and kind.
pub fn file_of_kind(alloc: Global, base: &[u8], kind: FileKind) -> Result<FileName, OutOfMemory>
    requires { IsAscii base.now }
    ensures { IfOk result (λ name. name ≡ kind_file (kind_in kind) base.now) }
{
    match kind {
        FileKind::Interface => file_named(alloc, base, ".mif"),
        FileKind::Object => file_named(alloc, base, ".mob"),
        FileKind::Image => file_named(alloc, base, ".mim"),
    }
}
