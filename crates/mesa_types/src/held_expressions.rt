//! Typed expressions and their parts.
ghost use Rattle.std.specs.Prelude.{◌≡◌, IfOk};

use crate::typed_tree::{Arm, Interval, Operation, Phrase, Suffix, TypedExpr};
use held_trees::mesa_base::{Boxed, List, OutOfMemory};
use held_trees::{InBox, InList, LetGo};
use std::alloc::Global;
use std::mem::drop;

impl LetGo for TypedExpr {
    fn let_go(self) {
        drop(self);
    }
}

impl InList for TypedExpr {
    fn let_list_go(list: List<TypedExpr>) {
        drop(list);
    }
}

impl InBox for TypedExpr {
    fn boxed(alloc: Global, part: TypedExpr) -> Result<Boxed<TypedExpr>, OutOfMemory> {
        Boxed::new(alloc, part)
    }
}

impl LetGo for Suffix {
    fn let_go(self) {
        drop(self);
    }
}

impl InList for Suffix {
    fn let_list_go(list: List<Suffix>) {
        drop(list);
    }
}

impl LetGo for Operation {
    fn let_go(self) {
        drop(self);
    }
}

impl InList for Operation {
    fn let_list_go(list: List<Operation>) {
        drop(list);
    }
}

impl LetGo for Interval {
    fn let_go(self) {
        drop(self);
    }
}

impl InBox for Interval {
    fn boxed(alloc: Global, part: Interval) -> Result<Boxed<Interval>, OutOfMemory> {
        Boxed::new(alloc, part)
    }
}

impl LetGo for Phrase {
    fn let_go(self) {
        drop(self);
    }
}

impl InBox for Phrase {
    fn boxed(alloc: Global, part: Phrase) -> Result<Boxed<Phrase>, OutOfMemory> {
        Boxed::new(alloc, part)
    }
}

impl LetGo for Arm {
    fn let_go(self) {
        drop(self);
    }
}

impl InList for Arm {
    fn let_list_go(list: List<Arm>) {
        drop(list);
    }
}
