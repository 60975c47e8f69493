//! Why the reading of a file stopped.

use mesa_base::{Field, OutOfMemory};
use std::alloc::{AllocError, AllocFailed};

/// Why reading stopped, before it is known how long the whole file is: the bytes end inside a field; a field breaks its
/// rule, with the number of bytes from its first on; or memory is wanting.
#[derive(Clone, Copy)]
pub enum Stopped {
    Cut,
    Bad(Field, usize),
    Memory,
}

impl From<OutOfMemory> for Stopped {
    ghost use Rattle.std.specs.Prelude.{◌≡◌};
    ghost use Rattle.file_forms.specs.declared.stopped.Stopped.TheVariants.{Memory};

    ghost from_gives = { λ _ stopped. stopped ≡ Memory };

    fn from(_: OutOfMemory) -> Stopped {
        Stopped::Memory
    }
}

impl From<AllocError> for Stopped {
    ghost use Rattle.std.specs.Prelude.{◌≡◌};
    ghost use Rattle.file_forms.specs.declared.stopped.Stopped.TheVariants.{Memory};

    ghost from_gives = { λ _ stopped. stopped ≡ Memory };

    fn from(_: AllocError) -> Stopped {
        Stopped::Memory
    }
}

impl<T: Drop> From<AllocFailed<T>> for Stopped {
    ghost use Rattle.std.specs.Prelude.{◌≡◌};
    ghost use Rattle.file_forms.specs.declared.stopped.Stopped.TheVariants.{Memory};

    ghost from_gives = { λ _ stopped. stopped ≡ Memory };

    fn from(_: AllocFailed<T>) -> Stopped {
        Stopped::Memory
    }
}
