//! Under what the index of exporters has them.

ghost use Rattle.std.specs.Prelude.{◌≡◌, ◌++◌};
ghost use Rattle.std.specs.Hash as fed;
ghost use Rattle.import_binder.specs.Keys.{same_key, key_equivalence, key_partial_equivalence, fed_alike};

use mesa_base::Name;
use std::hash::{Hash, Hasher};

/// A record of a scope, and the name of an item.
#[derive(Drop)]
pub struct ExporterKey {
    pub scope: u32,
    pub record_name: Name,
    pub item: Name,
}

impl PartialEq for ExporterKey {
    ghost eq = { same_key };

    ghost laws = { key_partial_equivalence };

    fn eq(&self, other: &ExporterKey) -> bool {
        self.scope == other.scope
            && self.record_name.bytes() == other.record_name.bytes()
            && self.item.bytes() == other.item.bytes()
    }
}

impl Eq for ExporterKey {
    ghost laws = { key_equivalence };
}

impl Hash for ExporterKey {
    ghost hash_input = { λ k. fed.u32 k.scope ++ fed.slice fed.u8 k.record_name ++ fed.slice fed.u8 k.item };

    ghost respects_eq = { fed_alike };

    fn hash<H: Hasher>(&self, state: &mut H) {
        self.scope.hash(state);
        self.record_name.bytes().hash(state);
        self.item.bytes().hash(state);
    }
}
