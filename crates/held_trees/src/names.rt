//! Names, with places and without.
ghost use Rattle.std.specs.Prelude.{◌≡◌, IfOk};

use crate::letting::{InList, InSharedList, LetGo};
use mesa_base::{Identifier, List, Name, OutOfMemory, Shared};
use std::alloc::Global;
use std::mem::drop;

impl LetGo for Name {
    fn let_go(self) {
        drop(self);
    }
}

impl InList for Name {
    fn let_list_go(list: List<Name>) {
        drop(list);
    }
}

impl InSharedList for Name {
    fn shared_list(alloc: Global, list: List<Name>) -> Result<Shared<List<Name>>, OutOfMemory>
        ensures { IfOk result (λ made. made ≡ list) }
    {
        Shared::new(alloc, list)
    }

    fn share_list(list: &Shared<List<Name>>) -> Result<Shared<List<Name>>, OutOfMemory>
        ensures { IfOk result (λ made. made ≡ list.now) }
    {
        list.share()
    }

    fn let_shared_list_go(list: Shared<List<Name>>) {
        drop(list);
    }
}

impl LetGo for Identifier {
    fn let_go(self) {
        drop(self);
    }
}

impl InList for Identifier {
    fn let_list_go(list: List<Identifier>) {
        drop(list);
    }
}
