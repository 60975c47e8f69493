//! Types and the heads that hold them.
ghost use Rattle.std.specs.Prelude.{◌≡◌, IfOk};

use crate::faces::Item;
use crate::types::{FieldType, TypeTree};
use held_trees::mesa_base::{List, OutOfMemory, Shared};
use held_trees::{InList, InShared, InSharedList, LetGo};
use std::alloc::Global;
use std::mem::drop;

impl LetGo for TypeTree {
    fn let_go(self) {
        drop(self);
    }
}

impl InShared for TypeTree {
    fn shared(alloc: Global, part: TypeTree) -> Result<Shared<TypeTree>, OutOfMemory> {
        Shared::new(alloc, part)
    }

    fn share(part: &Shared<TypeTree>) -> Result<Shared<TypeTree>, OutOfMemory> {
        part.share()
    }

    fn let_shared_go(part: Shared<TypeTree>) {
        drop(part);
    }
}

impl LetGo for FieldType {
    fn let_go(self) {
        drop(self);
    }
}

impl InList for FieldType {
    fn let_list_go(list: List<FieldType>) {
        drop(list);
    }
}

impl InSharedList for FieldType {
    fn shared_list(
        alloc: Global,
        list: List<FieldType>,
    ) -> Result<Shared<List<FieldType>>, OutOfMemory>
        ensures { IfOk result (λ made. made ≡ list) }
    {
        Shared::new(alloc, list)
    }

    fn share_list(list: &Shared<List<FieldType>>) -> Result<Shared<List<FieldType>>, OutOfMemory>
        ensures { IfOk result (λ made. made ≡ list.now) }
    {
        list.share()
    }

    fn let_shared_list_go(list: Shared<List<FieldType>>) {
        drop(list);
    }
}

impl LetGo for Item {
    fn let_go(self) {
        drop(self);
    }
}

impl InList for Item {
    fn let_list_go(list: List<Item>) {
        drop(list);
    }
}

impl InShared for Item {
    fn shared(alloc: Global, part: Item) -> Result<Shared<Item>, OutOfMemory> {
        Shared::new(alloc, part)
    }

    fn share(part: &Shared<Item>) -> Result<Shared<Item>, OutOfMemory> {
        part.share()
    }

    fn let_shared_go(part: Shared<Item>) {
        drop(part);
    }
}
