//! Expressions and their parts.
ghost use Rattle.std.specs.Prelude.{◌≡◌, IfOk};

use crate::syntax::{
    Arm, Brackets, Entries, Expr, Interval, Keyed, Left, Operation, Raise, Suffix,
};
use held_trees::mesa_base::{Boxed, List, OutOfMemory};
use held_trees::{InBox, InList, LetGo};
use std::alloc::Global;
use std::mem::drop;

impl LetGo for Expr {
    fn let_go(self) {
        drop(self);
    }
}

impl InList for Expr {
    fn let_list_go(list: List<Expr>) {
        drop(list);
    }
}

impl InBox for Expr {
    fn boxed(alloc: Global, part: Expr) -> Result<Boxed<Expr>, OutOfMemory> {
        Boxed::new(alloc, part)
    }
}

impl LetGo for Operation {
    fn let_go(self) {
        drop(self);
    }
}

impl InList for Operation {
    fn let_list_go(list: List<Operation>) {
        drop(list);
    }
}

impl LetGo for Interval {
    fn let_go(self) {
        drop(self);
    }
}

impl LetGo for Left {
    fn let_go(self) {
        drop(self);
    }
}

impl InList for Left {
    fn let_list_go(list: List<Left>) {
        drop(list);
    }
}

impl LetGo for Suffix {
    fn let_go(self) {
        drop(self);
    }
}

impl InList for Suffix {
    fn let_list_go(list: List<Suffix>) {
        drop(list);
    }
}

impl LetGo for Brackets {
    fn let_go(self) {
        drop(self);
    }
}

impl LetGo for Raise {
    fn let_go(self) {
        drop(self);
    }
}

impl InBox for Raise {
    fn boxed(alloc: Global, part: Raise) -> Result<Boxed<Raise>, OutOfMemory> {
        Boxed::new(alloc, part)
    }
}

impl LetGo for Arm {
    fn let_go(self) {
        drop(self);
    }
}

impl InList for Arm {
    fn let_list_go(list: List<Arm>) {
        drop(list);
    }
}

impl LetGo for Keyed<Expr> {
    fn let_go(self) {
        drop(self);
    }
}

impl InList for Keyed<Expr> {
    fn let_list_go(list: List<Keyed<Expr>>) {
        drop(list);
    }
}

impl LetGo for Keyed<Left> {
    fn let_go(self) {
        drop(self);
    }
}

impl InList for Keyed<Left> {
    fn let_list_go(list: List<Keyed<Left>>) {
        drop(list);
    }
}

impl LetGo for Entries<Expr> {
    fn let_go(self) {
        drop(self);
    }
}

impl LetGo for Entries<Left> {
    fn let_go(self) {
        drop(self);
    }
}
