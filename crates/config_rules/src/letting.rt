//! Instances and trees as what may be held and let go.

use crate::tree::{Tree, TreeInstance};
use mesa_base::List;
use mesa_types::held_trees::{InList, LetGo};
use std::mem::drop;

impl LetGo for TreeInstance {
    fn let_go(self) {
        let TreeInstance {
            path: _,
            component: _,
            scope: _,
            shape,
            imports: _,
            exports: _,
        } = self;
        shape.let_go();
    }
}

impl InList for TreeInstance {
    fn let_list_go(list: List<TreeInstance>) {
        drop(list);
    }
}

impl LetGo for Tree {
    fn let_go(self) {
        let Tree {
            scopes: _,
            instances,
            control: _,
        } = self;
        instances.let_go();
    }
}
