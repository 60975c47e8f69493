//! Typed statements and their parts.
ghost use Rattle.std.specs.Prelude.{◌≡◌, IfOk};

use crate::typed_tree::{Case, Condition, Exit, Loop, Target, Test, TypedStmt};
use held_trees::mesa_base::{Boxed, List, OutOfMemory, Shared};
use held_trees::{InBox, InList, InShared, LetGo};
use std::alloc::Global;
use std::mem::drop;

impl LetGo for TypedStmt {
    fn let_go(self) {
        drop(self);
    }
}

impl InShared for TypedStmt {
    fn shared(alloc: Global, part: TypedStmt) -> Result<Shared<TypedStmt>, OutOfMemory> {
        Shared::new(alloc, part)
    }

    fn share(part: &Shared<TypedStmt>) -> Result<Shared<TypedStmt>, OutOfMemory> {
        part.share()
    }

    fn let_shared_go(part: Shared<TypedStmt>) {
        drop(part);
    }
}

impl InList for TypedStmt {
    fn let_list_go(list: List<TypedStmt>) {
        drop(list);
    }
}

impl InBox for TypedStmt {
    fn boxed(alloc: Global, part: TypedStmt) -> Result<Boxed<TypedStmt>, OutOfMemory> {
        Boxed::new(alloc, part)
    }
}

impl LetGo for Target {
    fn let_go(self) {
        drop(self);
    }
}

impl InList for Target {
    fn let_list_go(list: List<Target>) {
        drop(list);
    }
}

impl LetGo for Case {
    fn let_go(self) {
        drop(self);
    }
}

impl InList for Case {
    fn let_list_go(list: List<Case>) {
        drop(list);
    }
}

impl LetGo for Test {
    fn let_go(self) {
        drop(self);
    }
}

impl InList for Test {
    fn let_list_go(list: List<Test>) {
        drop(list);
    }
}

impl LetGo for Exit {
    fn let_go(self) {
        drop(self);
    }
}

impl InList for Exit {
    fn let_list_go(list: List<Exit>) {
        drop(list);
    }
}

impl LetGo for Loop {
    fn let_go(self) {
        drop(self);
    }
}

impl InBox for Loop {
    fn boxed(alloc: Global, part: Loop) -> Result<Boxed<Loop>, OutOfMemory> {
        Boxed::new(alloc, part)
    }
}

impl LetGo for Condition {
    fn let_go(self) {
        drop(self);
    }
}
