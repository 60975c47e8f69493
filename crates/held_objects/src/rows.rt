//! The rows of one module, as its file has them.
use code_forms::{CodeLinks, CodeProcedures, CodeSignals};
use held_trees::LetGo;
use mesa_base::{Name, Texts};
use mesa_types::{Exports, Imports};
use std::mem::drop;

/// What a module has behind its imports, and its links, which follow from them.
#[derive(Drop)]
pub struct Body {
    pub global_words: u16,
    pub signals: CodeSignals,
    pub strings: Texts,
    pub links: CodeLinks,
    pub procedures: CodeProcedures,
    pub exports: Exports,
}

/// A module as its file has it, before its code has been looked at.
#[derive(Drop)]
pub struct ModuleRows {
    pub name: Name,
    pub imports: Imports,
    pub body: Body,
}

impl LetGo for Body {
    fn let_go(self) {
        drop(self);
    }
}

impl LetGo for ModuleRows {
    fn let_go(self) {
        drop(self);
    }
}
