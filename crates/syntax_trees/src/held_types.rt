//! Parts of types.
ghost use Rattle.std.specs.Prelude.{◌≡◌, IfOk};

use crate::syntax::{FieldList, Labeled, Labels, QualifiedName, RepeatLabels, TypeBase, TypeExp};
use held_trees::mesa_base::{Boxed, Identifiers, List, OutOfMemory};
use held_trees::{InBox, InList, LetGo};
use std::alloc::Global;
use std::mem::drop;

impl LetGo for QualifiedName {
    fn let_go(self) {
        drop(self);
    }
}

impl InList for QualifiedName {
    fn let_list_go(list: List<QualifiedName>) {
        drop(list);
    }
}

impl LetGo for Labels {
    fn let_go(self) {
        drop(self);
    }
}

impl LetGo for RepeatLabels {
    fn let_go(self) {
        drop(self);
    }
}

impl LetGo for TypeBase {
    fn let_go(self) {
        drop(self);
    }
}

impl LetGo for TypeExp {
    fn let_go(self) {
        drop(self);
    }
}

impl InList for TypeExp {
    fn let_list_go(list: List<TypeExp>) {
        drop(list);
    }
}

impl InBox for TypeExp {
    fn boxed(alloc: Global, part: TypeExp) -> Result<Boxed<TypeExp>, OutOfMemory> {
        Boxed::new(alloc, part)
    }
}

impl LetGo for Labeled<Identifiers, TypeExp> {
    fn let_go(self) {
        drop(self);
    }
}

impl InList for Labeled<Identifiers, TypeExp> {
    fn let_list_go(list: List<Labeled<Identifiers, TypeExp>>) {
        drop(list);
    }
}

impl LetGo for FieldList {
    fn let_go(self) {
        drop(self);
    }
}
