//! The file of an object.
ghost use Rattle.std.specs.Prelude.{◌≡◌, ◌≢◌, ◌↔◌, Err, IfOk};
ghost use Rattle.mesa_base.specs.declared.file_fault.WriteFault.TheVariants as fault;
ghost use Rattle.object_rules.specs.ObjectFiles.{IsObjectFile};
ghost use Rattle.object_writers.specs.ObjectBytes.{object_file};
ghost use Rattle.filed_images.specs.Files.{IsTooLarge};
ghost use Rattle.program_files.specs.Objects.{CanBeFiled};

use code_limits::has_few_links;
use mesa_base::{Bytes, WriteFault};
use object_files::Object;
use object_writers::write_object;
use std::alloc::Global;

/// The file of the object of a module that can be kept, in version 2. TooLarge, want of memory aside, exactly where the file would have more
/// than 536,870,912 bytes.
pub fn object_file(alloc: Global, object: &Object) -> Result<Bytes, WriteFault>
    requires { CanBeFiled object.now }
    ensures ok { IfOk result (λ file. IsObjectFile 2 object.now file) }
    ensures too_large { result ≢ Err fault.Memory → (result ≡ Err fault.TooLarge ↔ IsTooLarge (object_file object.now)) }
{
    // (such a module has few enough links; the call says besides that each jump leaves few enough arms)
    has_few_links(object.code.code());
    write_object(alloc, object)
}
