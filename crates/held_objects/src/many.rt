//! The modules of an image, before their code has been looked at.
ghost use Rattle.std.specs.Prelude.{◌≡◌, [], ◌∷◌, ◌++◌, IfOk};

use crate::pile::Pile;
use crate::rows::ModuleRows;
use held_trees::LetGo;
use interface_records::Wanteds;
use mesa_base::OutOfMemory;
use std::mem::drop;

/// Modules as their file has them, by number.
pub type ManyRows = Pile<ModuleRows>;

/// The modules of an image as its file has them, and what it wants of its loader.
#[derive(Drop)]
pub struct ImageHead {
    pub modules: ManyRows,
    pub wanted: Wanteds,
}

impl LetGo for Pile<ModuleRows> {
    fn let_go(self) {
        drop(self);
    }
}

impl LetGo for ImageHead {
    fn let_go(self) {
        drop(self);
    }
}

/// The modules with one more. Where memory runs out all are let go.
pub fn with_rows(mut modules: ManyRows, rows: ModuleRows) -> Result<ManyRows, OutOfMemory>
    ensures { IfOk result (λ longer. longer ≡ modules ++ rows ∷ []) }
{
    modules.push(rows)?;
    Ok(modules)
}
