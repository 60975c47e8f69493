//! Trees of configurations: components, scopes, instances, exporters, and to what links are bound.

use mesa_base::{Bytes, List, Name, Numbers, Path, Place};
use mesa_types::{Names, Shape};

/// A module that a configuration mentions: its name, the base of its file, and where it is mentioned first.
#[derive(Drop)]
pub struct Component {
    pub name: Name,
    pub file: Bytes,
    pub place: Place,
}

pub type Components = List<Component>;

/// What is known of components, in the order of their first mention.
pub type Shapes = List<Shape>;

/// A record of a scope, and the one that stands for it in the scope around.
#[derive(Drop)]
pub struct RecordPair {
    pub inside: Name,
    pub outside: Name,
}

pub type RecordPairs = List<RecordPair>;

/// A scope: the outermost one, or that of an instance of a nested configuration.
#[derive(Drop)]
pub struct TreeScope {
    pub around: Option<u32>,
    pub imports: RecordPairs,
    pub exports: RecordPairs,
}

pub type TreeScopes = List<TreeScope>;

/// An instance of a module, with a record of its scope for each import and each export of its shape.
#[derive(Drop)]
pub struct TreeInstance {
    pub path: Path,
    pub component: u32,
    pub scope: u32,
    pub shape: Shape,
    pub imports: Names,
    pub exports: Names,
}

pub type TreeInstances = List<TreeInstance>;

/// The scopes, of which the outermost is the first, the instances in tree order, and the numbers of those that CONTROL starts.
#[derive(Drop)]
pub struct Tree {
    pub scopes: TreeScopes,
    pub instances: TreeInstances,
    pub control: Numbers,
}

/// An export of an instance, both by number.
#[derive(Clone, Copy)]
pub struct Exporter {
    pub instance: u32,
    pub export: u32,
}

/// A scope that an export reaches, and the record there.
#[derive(Drop)]
pub struct Outgoing {
    pub scope: u32,
    pub record_name: Name,
    pub exporter: Exporter,
}

/// What a link of an instance is bound to: nothing yet, so that it is left to the loader; or the procedure, or the signal, of
/// this number of an instance (the instance's number comes first).
#[derive(Clone, Copy)]
pub enum Binding {
    Left,
    To(u32, u32),
}

/// The links of an instance, in the order of its module's links.
pub type BindingList = List<Binding>;

/// For each instance, in order, its links.
pub type BindingLists = List<BindingList>;
