//! Blocks are let go here alone.
ghost use Rattle.std.specs.Prelude.{◌≡◌, IfOk};

use crate::block::{ArmBlock, Block};
use held_trees::{InBox, InList, LetGo};
use mesa_base::{Boxed, List, OutOfMemory};
use std::alloc::Global;
use std::mem::drop;

impl LetGo for Block {
    fn let_go(self) {
        drop(self);
    }
}

impl InList for Block {
    fn let_list_go(list: List<Block>) {
        drop(list);
    }
}

impl InBox for Block {
    fn boxed(alloc: Global, part: Block) -> Result<Boxed<Block>, OutOfMemory> {
        Boxed::new(alloc, part)
    }
}

impl LetGo for ArmBlock {
    fn let_go(self) {
        drop(self);
    }
}

impl InList for ArmBlock {
    fn let_list_go(list: List<ArmBlock>) {
        drop(list);
    }
}
