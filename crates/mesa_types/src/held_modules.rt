//! Typed modules and their parts, and the faces of modules, which hold trees and types.
ghost use Rattle.std.specs.Prelude.{◌≡◌, IfOk};

use crate::faces::{Export, Face, Import, Shape};
use crate::typed_tree::{TypedBody, TypedModule, TypedProcedure};
use held_trees::mesa_base::{Boxed, List, OutOfMemory};
use held_trees::{InBox, InList, LetGo};
use std::alloc::Global;
use std::mem::drop;

impl LetGo for Face {
    fn let_go(self) {
        let Face {
            name: _,
            stamp: _,
            items,
        } = self;
        items.let_go();
    }
}

impl LetGo for Import {
    fn let_go(self) {
        let Import { face, used: _ } = self;
        face.let_go();
    }
}

impl InList for Import {
    fn let_list_go(list: List<Import>) {
        drop(list);
    }
}

impl LetGo for Export {
    fn let_go(self) {
        let Export { face, given: _ } = self;
        face.let_go();
    }
}

impl InList for Export {
    fn let_list_go(list: List<Export>) {
        drop(list);
    }
}

impl LetGo for Shape {
    fn let_go(self) {
        let Shape {
            name: _,
            imports,
            exports,
        } = self;
        imports.let_go();
        exports.let_go();
    }
}

impl LetGo for TypedBody {
    fn let_go(self) {
        let TypedBody { variables, does } = self;
        variables.let_go();
        does.let_go();
    }
}

impl LetGo for TypedProcedure {
    fn let_go(self) {
        let TypedProcedure { head, body } = self;
        head.let_go();
        body.let_go();
    }
}

impl InList for TypedProcedure {
    fn let_list_go(list: List<TypedProcedure>) {
        drop(list);
    }
}

impl LetGo for TypedModule {
    fn let_go(self) {
        let TypedModule {
            name: _,
            imports,
            exports,
            globals,
            signals,
            strings: _,
            procedures,
            body,
        } = self;
        imports.let_go();
        exports.let_go();
        globals.let_go();
        signals.let_go();
        procedures.let_go();
        body.let_go();
    }
}

impl InBox for TypedModule {
    fn boxed(alloc: Global, part: TypedModule) -> Result<Boxed<TypedModule>, OutOfMemory> {
        Boxed::new(alloc, part)
    }
}
