//! Why a parser function stopped.
use mesa_base::OutOfMemory;
use std::alloc::{AllocError, AllocFailed};

/// Why a parser function stopped, with the cursor at the token where it did.
#[derive(Drop)]
pub enum Stopped {
    Unexpected,
    TooDeep,
    Memory,
}

impl From<OutOfMemory> for Stopped {
    ghost use Rattle.std.specs.Prelude.{◌≡◌};
    ghost use Rattle.token_cursor.specs.declared.fault.Stopped.TheVariants.{Memory};

    ghost from_gives = { λ _ fault. fault ≡ Memory };

    fn from(_: OutOfMemory) -> Stopped {
        Stopped::Memory
    }
}

impl From<AllocError> for Stopped {
    ghost use Rattle.std.specs.Prelude.{◌≡◌};
    ghost use Rattle.token_cursor.specs.declared.fault.Stopped.TheVariants.{Memory};

    ghost from_gives = { λ _ fault. fault ≡ Memory };

    fn from(_: AllocError) -> Stopped {
        Stopped::Memory
    }
}

impl<T: Drop> From<AllocFailed<T>> for Stopped {
    ghost use Rattle.std.specs.Prelude.{◌≡◌};
    ghost use Rattle.token_cursor.specs.declared.fault.Stopped.TheVariants.{Memory};

    ghost from_gives = { λ _ fault. fault ≡ Memory };

    fn from(_: AllocFailed<T>) -> Stopped {
        Stopped::Memory
    }
}
