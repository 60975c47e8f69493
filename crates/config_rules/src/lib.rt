//! The tree of a configuration: its scopes and instances, who exports to a record of a scope, and what each item that is used
//! stands for (Language Manual, chapter 7; the faults are rules of this project). The definitions stand in `specs`.
#![tactic(auto)]

mod fault;
mod laws;
mod letting;
mod tree;

pub use cmesa_grammar;
pub use fault::{TreeCause, TreeFault};
pub use laws::{entries_are_exporters, items_bind, trees_are_in_order};
pub use tree::{
    Binding, BindingList, BindingLists, Component, Components, Exporter, Outgoing, RecordPair,
    RecordPairs, Shapes, Tree, TreeInstance, TreeInstances, TreeScope, TreeScopes,
};
