//! What ends a call before anything is run.

ghost use Rattle.std.specs.Prelude.{◌≡◌};
ghost use Rattle.command_passes.specs.Stops.{file_case, stop_case, unread_case};
ghost use Rattle.command_passes.specs.declared.stop.Stop.TheVariants as stop;

use crate::file_name::FileName;
use command_rules::Trouble;
use mesa_base::{FolderError, OutOfMemory};
use object_rules::ObjectFault;
use std::alloc::AllocFailed;

/// What ends a call before anything is run.
#[derive(Drop)]
pub enum Stop {
    /// The file is refused.
    Refused(FileName, Trouble),
    /// The file is not there.
    Absent(FileName),
    /// The folder failed at this file.
    FolderFault(FileName),
    Memory,
}

impl From<OutOfMemory> for Stop {
    ghost from_gives = { λ _ why. why ≡ stop.Memory };

    fn from(_: OutOfMemory) -> Stop {
        Stop::Memory
    }
}

impl<T: Drop> From<AllocFailed<T>> for Stop {
    ghost from_gives = { λ _ why. why ≡ stop.Memory };

    fn from(_: AllocFailed<T>) -> Stop {
        Stop::Memory
    }
}

/// Why a file was not read.
pub fn unread(file: FileName, why: FolderError) -> Stop
    ensures { stop_case result ≡ unread_case file why }
{
    match why {
        FolderError::Absent => Stop::Absent(file),
        FolderError::Failed => Stop::FolderFault(file),
        FolderError::Memory => Stop::Memory,
    }
}

/// What ends the call where the bytes of a file are none of its kind, or where the code that they hold is not valid.
pub fn unfit(file: FileName, fault: ObjectFault) -> Stop
    ensures { stop_case result ≡ file_case file fault }
{
    match fault {
        ObjectFault::Memory => Stop::Memory,
        fault => Stop::Refused(file, Trouble::File(fault)),
    }
}
