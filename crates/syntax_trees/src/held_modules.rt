//! Modules and their parts, which hold trees.

use crate::syntax::{
    Declaration, Declared, Defined, DirectoryItem, Head, Inner, Labeled, Module, ModuleKind,
};
use held_trees::mesa_base::{Identifiers, List};
use held_trees::{InList, LetGo};
use std::mem::drop;

impl LetGo for Head {
    fn let_go(self) {
        let Head { takes, gives } = self;
        takes.let_go();
        gives.let_go();
    }
}

impl LetGo for Declared {
    fn let_go(self) {
        match self {
            Declared::Procedure(head, body) => {
                head.let_go();
                body.let_go();
            }
            Declared::Signal(head) => head.let_go(),
            Declared::Error(fields) => fields.let_go(),
            Declared::Data(data) => data.let_go(),
        }
    }
}

impl LetGo for Declaration {
    fn let_go(self) {
        let Declaration {
            names,
            access: _,
            declared,
        } = self;
        names.let_go();
        declared.let_go();
    }
}

impl InList for Declaration {
    fn let_list_go(list: List<Declaration>) {
        drop(list);
    }
}

impl LetGo for Inner {
    fn let_go(self) {
        let Inner {
            enable,
            declarations,
            statements,
            exits,
        } = self;
        enable.let_go();
        declarations.let_go();
        statements.let_go();
        exits.let_go();
    }
}

impl LetGo for Defined {
    fn let_go(self) {
        match self {
            Defined::ProcedureItem(head) => head.let_go(),
            Defined::SignalItem(head) => head.let_go(),
            Defined::ErrorItem(fields) => fields.let_go(),
            Defined::TypeItem(of) => of.let_go(),
            Defined::ConstantItem(of, value) => {
                of.let_go();
                value.let_go();
            }
        }
    }
}

impl LetGo for Labeled<Identifiers, Defined> {
    fn let_go(self) {
        let Labeled { labels, item } = self;
        labels.let_go();
        item.let_go();
    }
}

impl InList for Labeled<Identifiers, Defined> {
    fn let_list_go(list: List<Labeled<Identifiers, Defined>>) {
        drop(list);
    }
}

impl LetGo for ModuleKind {
    fn let_go(self) {
        match self {
            ModuleKind::Program {
                place: _,
                imports,
                exports,
                opens,
                inner,
            } => {
                imports.let_go();
                exports.let_go();
                opens.let_go();
                inner.let_go();
            }
            ModuleKind::Interface {
                place: _,
                opens,
                definitions,
            } => {
                opens.let_go();
                definitions.let_go();
            }
        }
    }
}

impl LetGo for DirectoryItem {
    fn let_go(self) {
        drop(self);
    }
}

impl InList for DirectoryItem {
    fn let_list_go(list: List<DirectoryItem>) {
        drop(list);
    }
}

impl LetGo for Module {
    fn let_go(self) {
        let Module {
            directory,
            name,
            kind,
        } = self;
        directory.let_go();
        name.let_go();
        kind.let_go();
    }
}
