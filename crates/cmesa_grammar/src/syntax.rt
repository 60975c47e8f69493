//! The syntax tree of a configuration (Language Manual, chapter 7): what each production of the grammar says. A list that
//! is not there is an empty one, since both mean the same. A place is kept where a refusal of the binder may need it.

use mesa_base::{Bytes, Identifier, Identifiers, List, Place};

/// A component, the string that says its file, and where that stands.
#[derive(Drop)]
pub struct ComponentFile {
    pub name: Identifier,
    pub file_place: Place,
    pub file: Bytes,
}

pub type ComponentFiles = List<ComponentFile>;

/// What stands before the `=` of a configuration: its name, and the names behind IMPORTS, EXPORTS and CONTROL.
#[derive(Drop)]
pub struct Heading {
    pub name: Identifier,
    pub imports: Identifiers,
    pub exports: Identifiers,
    pub control: Identifiers,
}

/// An instance of a component, at its first token: the records that take what it exports, its own name where it has one,
/// and the records from which it imports.
#[derive(Drop)]
pub struct Instantiation {
    pub place: Place,
    pub records: Identifiers,
    pub name: Option<Identifier>,
    pub component: Identifier,
    pub arguments: Identifiers,
}

#[cycle(configuration)]
#[derive(Drop)]
pub struct Configuration {
    pub heading: Heading,
    pub statements: ConfigStatements,
}

/// What stands in a configuration: another one, or an instance of a component.
#[cycle(configuration)]
#[derive(Drop)]
pub enum ConfigStatement {
    Declare(Configuration),
    Instantiate(Instantiation),
}

pub type ConfigStatements = List<ConfigStatement>;

/// A whole text: the files of components, and the configuration that stands in no other.
#[derive(Drop)]
pub struct Config {
    pub directory: ComponentFiles,
    pub outermost: Configuration,
}
