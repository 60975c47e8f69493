//! Why a program has no files.
ghost use Rattle.std.specs.Prelude.{◌≡◌};
ghost use Rattle.program_files.specs.Objects.{fault_of};
ghost use Rattle.program_files.specs.declared.size_fault.SizeFault.TheVariants.{Memory};

use mesa_base::{OutOfMemory, WriteFault};

/// Why a program has no files.
#[derive(Clone, Copy)]
pub enum SizeFault {
    /// The file of the object with this number would have more than 536,870,912 bytes; it is the first.
    Object(usize),
    /// The file of the image would, and that of no object.
    Image,
    Memory,
}

impl From<OutOfMemory> for SizeFault {
    ghost from_gives = { λ _ fault. fault ≡ Memory };

    fn from(_: OutOfMemory) -> SizeFault {
        SizeFault::Memory
    }
}

/// A fault of writing, where too large a file is this fault.
pub fn fault_of(fault: WriteFault, large: SizeFault) -> SizeFault
    ensures { result ≡ fault_of fault large }
{
    match fault {
        WriteFault::TooLarge => large,
        WriteFault::Memory => SizeFault::Memory,
    }
}
