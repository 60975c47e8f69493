//! Why images are not loaded.

ghost use Rattle.std.specs.Prelude.{◌≡◌};
ghost use Rattle.loader_rules.specs.declared.fault.LoadFault.TheVariants.{Memory};

use interface_records::WantedItem;
use mesa_base::{Name, OutOfMemory, Path, Stamp};
use std::alloc::AllocFailed;

/// Why images are not loaded: the first fault of the first image that has one (rule of this project), or want of memory. The number is
/// that of the image, from 0; a wanted item has an empty path.
#[derive(Drop)]
pub enum LoadFault {
    /// No image before offers the item.
    NoExporter(u32, WantedItem),
    /// Two before offer it under its stamp: the first two, each by its path in the loaded image.
    Twice(u32, WantedItem, Path, Path),
    /// None before offers it under its stamp: the stamp that is wanted, and that of the first who offers it.
    OtherStamp(u32, WantedItem, Stamp, Stamp),
    /// The one who offers it has another face than an import that links to it.
    FaceDiffers(u32, WantedItem),
    /// It offers something under this record, which is the built-in one or not that of the interface.
    OddRecord(u32, Name),
    /// With those before it has too many instances or modules.
    TooManyInstances(u32),
    /// A path is as long as a path can be.
    TooNested(u32),
    Memory,
}

impl From<OutOfMemory> for LoadFault {
    ghost from_gives = { λ _ fault. fault ≡ Memory };

    fn from(_: OutOfMemory) -> LoadFault {
        LoadFault::Memory
    }
}

impl<T: Drop> From<AllocFailed<T>> for LoadFault {
    ghost from_gives = { λ _ fault. fault ≡ Memory };

    fn from(_: AllocFailed<T>) -> LoadFault {
        LoadFault::Memory
    }
}
