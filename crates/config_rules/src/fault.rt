//! Why a configuration has no tree.

use mesa_base::{OutOfMemory, Place};

/// Why a configuration has no tree.
#[derive(Clone, Copy)]
pub enum TreeCause {
    UnknownComponent,
    TwiceNamed,
    CountDiffers,
    RecordClash,
    UnknownRecord,
    InterfaceDiffers,
    UnknownControl,
    TooManyInstances,
    TooNested,
}

/// The first fault of a configuration at its place, or want of memory.
#[derive(Clone, Copy)]
pub enum TreeFault {
    At(TreeCause, Place),
    Memory,
}

impl From<OutOfMemory> for TreeFault {
    ghost use Rattle.std.specs.Prelude.{◌≡◌};
    ghost use Rattle.config_rules.specs.declared.fault.TreeFault.TheVariants.{Memory};

    ghost from_gives = { λ _ fault. fault ≡ Memory };

    fn from(_: OutOfMemory) -> TreeFault {
        TreeFault::Memory
    }
}
