//! Names that came before.

ghost use Rattle.std.specs.Prelude.{◌≡◌, ℕ, List, [], ◌∷◌, ◌++◌, OnOk};
ghost use Rattle.file_forms.specs.Names.{is_among};
ghost use Rattle.file_forms.specs.Seen.{Shows};

use check_scopes::Index;
use mesa_base::OutOfMemory;
use std::alloc::Global;

/// Names that came before, as an ordered index: asking or adding takes log n steps among n names.
#[derive(Drop)]
pub struct Seen {
    pub names: Index<()>,
}

impl Seen {
    /// No names. It takes no memory.
    pub fn new(alloc: Global) -> Seen
        ensures { Shows result [] }
    {
        Seen {
            names: Index::new(alloc),
        }
    }

    /// Whether the name came before.
    pub fn has(&self, name: &[u8]) -> bool
        ensures { (names : List (List ℕ)) → Shows self.now names → result ≡ is_among names name.now }
    {
        self.names.has(name)
    }

    /// One name more.
    pub fn add(&mut self, alloc: Global, name: &[u8]) -> Result<(), OutOfMemory>
        ensures { OnOk result ((names : List (List ℕ)) → Shows self.old names → Shows self.new (names ++ name.now ∷ [])) }
    {
        self.names.declare(alloc, name, ())?;
        Ok(())
    }
}
