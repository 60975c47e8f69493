//! Which wanted items of the built-in interface the host has.

ghost use Rattle.std.specs.Prelude.{◌≡◌, ◌↔◌, IsTrue};
ghost use Rattle.interface_records.specs.Faces.{iodefs};
ghost use Rattle.command_loads.specs.Lacking.{IsHad};

use interface_records::Wanted;
use interface_records::typed_answers::same_name;
use machine_ready::is_host_item;
use mesa_types::Face;

/// Whether the wanted item is of another interface than the built-in one, which is this face, or the host has it.
pub(crate) fn is_had(face: &Face, wanted: &Wanted) -> bool
    requires { face.now ≡ iodefs.face }
    ensures { IsTrue result ↔ IsHad wanted.now }
{
    if same_name(&wanted.face, &face.name) {
        is_host_item(face, wanted)
    } else {
        true
    }
}
