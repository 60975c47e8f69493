//! Names in an index.
ghost use Rattle.std.specs.Prelude.{◌≡◌, ℕ, List, ◌∷◌, OnOk};
ghost use Rattle.check_scopes.specs.Scopes.{has};
ghost use Rattle.config_templates.specs.Known.{Knows};

use check_scopes::Index;
use mesa_base::{Name, OutOfMemory};
use std::alloc::Global;

/// Whether the name is among those of the index.
pub fn is_known(known: &Index<()>, name: &Name) -> bool
    ensures { (names : List (List ℕ)) → Knows known.now names → result ≡ has name.now names }
{
    known.has(name.bytes())
}

/// Puts a name to those of the index.
pub fn note(alloc: Global, known: &mut Index<()>, name: &Name) -> Result<(), OutOfMemory>
    ensures { OnOk result ((names : List (List ℕ)) → Knows known.old names → Knows known.new (name.now ∷ names)) }
{
    known.declare(alloc, name.bytes(), ())?;
    Ok(())
}
