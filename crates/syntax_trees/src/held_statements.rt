//! Statements and their parts.
ghost use Rattle.std.specs.Prelude.{◌≡◌, IfOk};

use crate::syntax::{
    Block, Case, Condition, Control, Count, Exit, Local, PlainItem, Repeat, Statement, Test,
};
use held_trees::mesa_base::{Boxed, List, OutOfMemory};
use held_trees::{InBox, InList, LetGo};
use std::alloc::Global;
use std::mem::drop;

impl LetGo for Statement {
    fn let_go(self) {
        drop(self);
    }
}

impl InList for Statement {
    fn let_list_go(list: List<Statement>) {
        drop(list);
    }
}

impl InBox for Statement {
    fn boxed(alloc: Global, part: Statement) -> Result<Boxed<Statement>, OutOfMemory> {
        Boxed::new(alloc, part)
    }
}

impl LetGo for Control {
    fn let_go(self) {
        drop(self);
    }
}

impl InBox for Control {
    fn boxed(alloc: Global, part: Control) -> Result<Boxed<Control>, OutOfMemory> {
        Boxed::new(alloc, part)
    }
}

impl LetGo for Count {
    fn let_go(self) {
        drop(self);
    }
}

impl LetGo for Condition {
    fn let_go(self) {
        drop(self);
    }
}

impl LetGo for Case {
    fn let_go(self) {
        drop(self);
    }
}

impl InList for Case {
    fn let_list_go(list: List<Case>) {
        drop(list);
    }
}

impl LetGo for Test {
    fn let_go(self) {
        drop(self);
    }
}

impl InList for Test {
    fn let_list_go(list: List<Test>) {
        drop(list);
    }
}

impl LetGo for Block {
    fn let_go(self) {
        drop(self);
    }
}

impl LetGo for PlainItem {
    fn let_go(self) {
        drop(self);
    }
}

impl LetGo for Local {
    fn let_go(self) {
        drop(self);
    }
}

impl InList for Local {
    fn let_list_go(list: List<Local>) {
        drop(list);
    }
}

impl LetGo for Exit {
    fn let_go(self) {
        drop(self);
    }
}

impl InList for Exit {
    fn let_list_go(list: List<Exit>) {
        drop(list);
    }
}

impl LetGo for Repeat {
    fn let_go(self) {
        drop(self);
    }
}

impl InList for Repeat {
    fn let_list_go(list: List<Repeat>) {
        drop(list);
    }
}
