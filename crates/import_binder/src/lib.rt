//! What each item stands for that an instance of a tree uses: the binder, over an index of those who export.
#![tactic(auto)]

mod binder;
mod bindings;
mod choosing;
mod exporting;
mod fault;
mod finder;
mod index;
mod key;
mod laws;
mod links;
mod lookup;
mod naming;
mod numbers;

pub use binder::bind;
pub use bindings::Bindings;
pub use config_rules;
pub use config_tree;
pub use fault::BindFault;
pub use index::{ExporterIndex, Exporters};
pub use key::ExporterKey;
pub use laws::{index_holds_exporters, trees_give_once};
