//! Templates as what may be held, shared and let go.
ghost use Rattle.std.specs.Prelude.{◌≡◌, IfOk};

use crate::template::{Template, TemplatePart};
use held_trees::{InList, InShared, LetGo};
use mesa_base::{List, OutOfMemory, Shared};
use std::alloc::Global;
use std::mem::drop;

impl LetGo for Template {
    fn let_go(self) {
        drop(self);
    }
}

impl InShared for Template {
    fn shared(alloc: Global, part: Template) -> Result<Shared<Template>, OutOfMemory> {
        Shared::new(alloc, part)
    }

    fn share(part: &Shared<Template>) -> Result<Shared<Template>, OutOfMemory> {
        part.share()
    }

    fn let_shared_go(part: Shared<Template>) {
        drop(part);
    }
}

impl LetGo for TemplatePart {
    fn let_go(self) {
        drop(self);
    }
}

impl InList for TemplatePart {
    fn let_list_go(list: List<TemplatePart>) {
        drop(list);
    }
}
