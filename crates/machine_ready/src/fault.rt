//! Why an image is not made ready.

ghost use Rattle.std.specs.Prelude.{◌≡◌};
ghost use Rattle.machine_ready.specs.declared.fault.ReadyFault.TheVariants.{Memory};

use interface_records::WantedItem;
use mesa_base::OutOfMemory;

/// Why an image is not made ready: it wants an item that is none of the host's, which the fault names with an empty
/// path; or memory ran out.
#[derive(Drop)]
pub enum ReadyFault {
    Unresolved(WantedItem),
    Memory,
}

impl From<OutOfMemory> for ReadyFault {
    ghost from_gives = { λ _ fault. fault ≡ Memory };

    fn from(_: OutOfMemory) -> ReadyFault {
        ReadyFault::Memory
    }
}
