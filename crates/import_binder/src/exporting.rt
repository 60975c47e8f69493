//! The index of a whole tree.

ghost use Rattle.std.specs.Prelude.{◌≡◌, [], IfOk};
ghost use Rattle.config_rules.specs.Outgoing.{outgoing};
ghost use Rattle.import_binder.specs.Index.{indexed, mentions_in};

use crate::index::{ExporterIndex, index_of};
use config_rules::Tree;
use config_tree::outgoing;
use mesa_base::OutOfMemory;
use std::alloc::Global;

/// Each export of the tree under each record that it reaches and each item that it gives.
pub fn index_exporters(alloc: Global, tree: &Tree) -> Result<ExporterIndex, OutOfMemory>
    ensures { IfOk result (λ index. index.entries ≡ indexed [] (mentions_in tree.now (outgoing tree.now))) }
{
    let entries = outgoing(alloc, tree)?;
    index_of(alloc, tree, entries.as_slice())
}
