//! What faces are found by.
ghost use Rattle.std.specs.Prelude.{◌≡◌, ◌++◌, IfOk};
ghost use Rattle.std.specs.Hash as fed;
ghost use Rattle.config_tree.specs.FaceKeys.{same_key, key_equivalence, key_partial_equivalence, fed_alike, key_of};

use mesa_base::{Name, OutOfMemory};
use mesa_types::Face;
use std::alloc::Global;
use std::hash::{Hash, Hasher};

/// The name and the stamp of a face.
#[derive(Drop)]
pub struct FaceKey {
    pub name: Name,
    pub stamp: u64,
}

impl PartialEq for FaceKey {
    ghost eq = { same_key };

    ghost laws = { key_partial_equivalence };

    fn eq(&self, other: &FaceKey) -> bool {
        self.stamp == other.stamp && self.name.bytes() == other.name.bytes()
    }
}

impl Eq for FaceKey {
    ghost laws = { key_equivalence };
}

impl Hash for FaceKey {
    ghost hash_input = { λ k. fed.u64 k.stamp ++ fed.slice fed.u8 k.name };

    ghost respects_eq = { fed_alike };

    fn hash<H: Hasher>(&self, state: &mut H) {
        self.stamp.hash(state);
        self.name.bytes().hash(state);
    }
}

/// The key of a face.
pub fn key_of(alloc: Global, face: &Face) -> Result<FaceKey, OutOfMemory>
    ensures { IfOk result (λ key. key ≡ key_of face.now) }
{
    Ok(FaceKey {
        name: face.name.copy(alloc)?,
        stamp: face.stamp.number(),
    })
}
