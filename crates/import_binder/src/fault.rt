//! Why a tree is not bound.

ghost use Rattle.std.specs.Prelude.{◌≡◌};
ghost use Rattle.import_binder.specs.declared.fault.BindFault.TheVariants.{Memory};

use interface_records::WantedItem;
use mesa_base::{OutOfMemory, Path, Stamp};
use std::alloc::AllocFailed;

/// Why a tree is not bound: its first bad item and what is wrong with it (Language Manual, chapter 7; which item and which
/// exporters are named is a rule of this project), or want of memory.
#[derive(Drop)]
pub enum BindFault {
    /// Nobody exports an item of that name to the record.
    NoExporter(WantedItem),
    /// Two export it under the interface's name and stamp, the first two in tree order.
    Twice(WantedItem, Path, Path),
    /// Nobody exports it under the interface's name and stamp, and the first who exports it does so under another name.
    OtherInterface(WantedItem, Path),
    /// Nobody exports it under the interface's name and stamp, and the first who exports it does so under that name: the stamp that is wanted,
    /// and the one that is found.
    OtherStamp(WantedItem, Stamp, Stamp),
    Memory,
}

impl From<OutOfMemory> for BindFault {
    ghost from_gives = { λ _ fault. fault ≡ Memory };

    fn from(_: OutOfMemory) -> BindFault {
        BindFault::Memory
    }
}

impl<T: Drop> From<AllocFailed<T>> for BindFault {
    ghost from_gives = { λ _ fault. fault ≡ Memory };

    fn from(_: AllocFailed<T>) -> BindFault {
        BindFault::Memory
    }
}
