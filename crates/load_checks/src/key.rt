//! By what those are found who offer an item.

ghost use Rattle.std.specs.Prelude.{◌≡◌, ◌++◌, IfOk};
ghost use Rattle.std.specs.Hash as fed;
ghost use Rattle.load_checks.specs.Keys.{same_key, key_equivalence, key_partial_equivalence, fed_alike, key_of};

use interface_records::Wanted;
use mesa_base::{Name, OutOfMemory, Stamp};
use std::alloc::Global;
use std::hash::{Hash, Hasher};

/// The name of a record and of its interface, the interface's stamp, and the name of an item of it.
#[derive(Drop)]
pub struct EntryKey {
    pub face: Name,
    pub stamp: Stamp,
    pub item: Name,
}

impl PartialEq for EntryKey {
    ghost eq = { same_key };

    ghost laws = { key_partial_equivalence };

    fn eq(&self, other: &EntryKey) -> bool {
        self.face.bytes() == other.face.bytes()
            && self.stamp.number() == other.stamp.number()
            && self.item.bytes() == other.item.bytes()
    }
}

impl Eq for EntryKey {
    ghost laws = { key_equivalence };
}

impl Hash for EntryKey {
    ghost hash_input = { λ k. fed.slice fed.u8 k.face ++ fed.u64 k.stamp ++ fed.slice fed.u8 k.item };

    ghost respects_eq = { fed_alike };

    fn hash<H: Hasher>(&self, state: &mut H) {
        self.face.bytes().hash(state);
        self.stamp.number().hash(state);
        self.item.bytes().hash(state);
    }
}

/// The key of a wanted item.
pub fn key_of(alloc: Global, wanted: &Wanted) -> Result<EntryKey, OutOfMemory>
    ensures { IfOk result (λ key. key ≡ key_of wanted.now) }
{
    Ok(EntryKey {
        face: wanted.face.copy(alloc)?,
        stamp: wanted.stamp,
        item: wanted.item.name.copy(alloc)?,
    })
}
