//! What a name may mean, and how a meaning is shared.
ghost use Rattle.std.specs.Prelude.{◌≡◌, IfOk};

use mesa_types::mesa_base::{OutOfMemory, Shared};
use mesa_types::{Callee, Home, Item, Raised, TypeTree};
use std::alloc::Global;

/// What a name means. Heads, and what is large in types, have all meanings that were shared from it as owners.
#[derive(Drop)]
pub enum Meaning {
    Variable(Home, TypeTree),
    /// A constant or an element of an enumeration, with its word, or, of a LONG type, its number as two words spell it.
    Constant(TypeTree, u32),
    /// A string literal's name.
    TextConstant(u16),
    TypeName(TypeTree),
    Procedure(Callee, Shared<Item>),
    /// A signal or an error.
    Signal(Raised, Shared<Item>),
    /// An item of the DIRECTORY, by its number.
    Interface(u32),
    /// A type, constant or variable of the module that is declared further on.
    Later,
    /// A procedure, signal or error of the module whose head stands further on.
    Headless,
    /// A procedure, signal or error of an interface that the module does not import.
    NotImported,
}

impl Meaning {
    /// The same meaning, in a number of steps that does not grow with its type or head.
    pub fn share(&self, alloc: Global) -> Result<Meaning, OutOfMemory>
        ensures { IfOk result (λ copy. copy ≡ self.now) }
    {
        match self {
            Meaning::Variable(home, kind) => Ok(Meaning::Variable(*home, kind.copy(alloc)?)),
            Meaning::Constant(kind, value) => Ok(Meaning::Constant(kind.copy(alloc)?, *value)),
            Meaning::TextConstant(number) => Ok(Meaning::TextConstant(*number)),
            Meaning::TypeName(kind) => Ok(Meaning::TypeName(kind.copy(alloc)?)),
            Meaning::Procedure(callee, head) => Ok(Meaning::Procedure(*callee, head.share()?)),
            Meaning::Signal(raised, head) => Ok(Meaning::Signal(*raised, head.share()?)),
            Meaning::Interface(number) => Ok(Meaning::Interface(*number)),
            Meaning::Later => Ok(Meaning::Later),
            Meaning::Headless => Ok(Meaning::Headless),
            Meaning::NotImported => Ok(Meaning::NotImported),
        }
    }
}
