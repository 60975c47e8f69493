//! The trees of configurations as what may be held and let go.

use crate::syntax::{ComponentFile, Config, ConfigStatement, Configuration};
use held_trees::{InList, LetGo};
use mesa_base::List;
use std::mem::drop;

impl LetGo for ComponentFile {
    fn let_go(self) {
        drop(self);
    }
}

impl InList for ComponentFile {
    fn let_list_go(list: List<ComponentFile>) {
        drop(list);
    }
}

impl LetGo for Configuration {
    fn let_go(self) {
        drop(self);
    }
}

impl LetGo for ConfigStatement {
    fn let_go(self) {
        drop(self);
    }
}

impl InList for ConfigStatement {
    fn let_list_go(list: List<ConfigStatement>) {
        drop(list);
    }
}

impl LetGo for Config {
    fn let_go(self) {
        let Config {
            directory,
            outermost,
        } = self;
        directory.let_go();
        outermost.let_go();
    }
}
