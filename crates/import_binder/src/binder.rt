//! The binder.

ghost use Rattle.std.specs.Prelude.{IfOk, IfErr};
ghost use Rattle.config_rules.specs.Resolves.{wants};
ghost use Rattle.import_binder.specs.Bindings.{AreBindings, IsRefused};
ghost use Rattle.import_binder.specs.InOrder.{IsInOrder};

use crate::bindings::Bindings;
use crate::exporting::index_exporters;
use crate::fault::BindFault;
use crate::links::all_links;
use crate::lookup::IndexedTree;
use config_rules::Tree;
use config_tree::import_records;
use std::alloc::Global;

/// What each item stands for that an instance uses, and who exports what to which record; or the first bad item, over the instances
/// in tree order, their imports in order and their items in the interface's order (Language Manual, chapter 7). Each item is looked up
/// once in an index of all exports: it takes n log n steps in the size of the tree and of what its exports reach.
pub fn bind(alloc: Global, tree: &Tree) -> Result<Bindings, BindFault>
    requires { IsInOrder tree.now }
    ensures ok { IfOk result (AreBindings tree.now) }
    ensures err { IfErr result (IsRefused tree.now (wants tree.now)) }
{
    let exporters = index_exporters(alloc, tree)?;
    let imported = import_records(alloc, tree)?;
    let indexed = IndexedTree {
        tree,
        imported: &imported,
        exporters: &exporters,
    };
    let links = all_links(alloc, &indexed)?;
    Ok(Bindings { links, exporters })
}
