//! Why checking refuses a text: a cause at a place, or want of memory.
use mesa_base::{OutOfMemory, Place};
use std::alloc::{AllocError, AllocFailed};

#[derive(Clone, Copy)]
pub enum Cause {
    UnknownName,
    TwiceDeclared,
    TypeMismatch,
    NotConstant,
    BadLabel,
    WrongCount,
    NotResumable,
    UnwindJumps,
    ExportDiffers,
    FrameTooLarge,
    GlobalsTooLarge,
    TypeTooLarge,
    StampMissing,
    StampUnwanted,
}

#[derive(Clone, Copy)]
pub enum CheckFault {
    At(Cause, Place),
    Memory,
}

impl From<OutOfMemory> for CheckFault {
    ghost use Rattle.std.specs.Prelude.{◌≡◌};
    ghost use Rattle.check_rules.specs.declared.fault.CheckFault.TheVariants.{Memory};

    ghost from_gives = { λ _ e. e ≡ Memory };

    fn from(_: OutOfMemory) -> CheckFault {
        CheckFault::Memory
    }
}

impl From<AllocError> for CheckFault {
    ghost use Rattle.std.specs.Prelude.{◌≡◌};
    ghost use Rattle.check_rules.specs.declared.fault.CheckFault.TheVariants.{Memory};

    ghost from_gives = { λ _ e. e ≡ Memory };

    fn from(_: AllocError) -> CheckFault {
        CheckFault::Memory
    }
}

impl<T: Drop> From<AllocFailed<T>> for CheckFault {
    ghost use Rattle.std.specs.Prelude.{◌≡◌};
    ghost use Rattle.check_rules.specs.declared.fault.CheckFault.TheVariants.{Memory};

    ghost from_gives = { λ _ e. e ≡ Memory };

    fn from(_: AllocFailed<T>) -> CheckFault {
        CheckFault::Memory
    }
}
