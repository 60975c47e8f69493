//! Items that an image leaves to its loader, and how a fault names one.

use check_scopes::mesa_base::{List, Name, Path, Stamp};
use typed_answers::mesa_types::Item;

pub type Wanteds = List<Wanted>;

/// An item that an image leaves to its loader, with the name and stamp of its interface.
#[derive(Drop)]
pub struct Wanted {
    pub face: Name,
    pub stamp: Stamp,
    pub item: Item,
}

/// An item as a fault names it: the path of the instance that wants it, its interface's name and stamp, and its name.
#[derive(Drop)]
pub struct WantedItem {
    pub at: Path,
    pub face: Name,
    pub stamp: Stamp,
    pub item: Name,
}
