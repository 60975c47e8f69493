//! What is grown of a tree.

use config_rules::{TreeInstances, TreeScopes};
use held_trees::LetGo;

/// The scopes and the instances so far, in tree order.
pub struct Growth {
    pub scopes: TreeScopes,
    pub instances: TreeInstances,
}

impl LetGo for Growth {
    fn let_go(self) {
        let Growth {
            scopes: _,
            instances,
        } = self;
        instances.let_go();
    }
}
