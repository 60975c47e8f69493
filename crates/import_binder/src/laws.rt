//! What is so of the index of each tree in order.

ghost use Rattle.import_binder.specs.Laws.{IndexHoldsExporters, TreesGiveOnce};

/// A law: in a tree in order, the index has exactly the records and items that are exported, each once, in the order in which they
/// are exported first, and under each of them its exporters in tree order.
pub fn index_holds_exporters()
    ensures { IndexHoldsExporters }
{}

/// A law: in a tree of shapes in order no export gives an item of one name twice.
pub fn trees_give_once()
    ensures { TreesGiveOnce }
{}
