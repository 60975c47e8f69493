//! Interfaces, with the constants and types that they declare.

use check_scopes::mesa_base::{List, Name};
use std::mem::drop;
use typed_answers::held_trees::LetGo;
use typed_answers::mesa_types::{Face, TypeTree};

pub type Constants = List<Constant>;

pub type NamedTypes = List<NamedType>;

pub type Interfaces = List<Interface>;

/// A constant of an interface: its type is ordinal or a LONG type, and the value is its word, or its number as two words.
#[derive(Drop)]
pub struct Constant {
    pub name: Name,
    pub kind: TypeTree,
    pub value: u32,
}

/// A type that an interface declares.
#[derive(Drop)]
pub struct NamedType {
    pub name: Name,
    pub kind: TypeTree,
}

/// What a DEFINITIONS module declares, under a stamp (Language Manual, chapter 7).
#[derive(Drop)]
pub struct Interface {
    pub face: Face,
    pub constants: Constants,
    pub types: NamedTypes,
}

impl LetGo for Interface {
    fn let_go(self) {
        drop(self);
    }
}
