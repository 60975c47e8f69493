//! The laws of trees: that they are in order, which items bind, and which entries are exporters.

ghost use Rattle.config_rules.specs.Laws.{EntriesAreExporters, ItemsBind, TreesAreInOrder};

/// A law: a tree that is made is in order. Its instances have the shapes of their components, there are not too many, scopes
/// lie inward of those around them, and CONTROL numbers are those of instances.
pub fn trees_are_in_order()
    ensures { TreesAreInOrder }
{}

/// A law: an item is not bad exactly where it passes the outermost scope, or has exactly one visible exporter under the same
/// interface name and stamp.
pub fn items_bind()
    ensures { ItemsBind }
{}

/// A law: in a tree in order, the entries of a scope and record whose export gives an item are the visible exporters of it.
pub fn entries_are_exporters()
    ensures { EntriesAreExporters }
{}
