//! The laws of what a tree offers and starts: each export and each instance once at most.
ghost use Rattle.tree_sizes.specs.Laws.{MadeTreesAreShort, SinglesAreShort};

/// A law: the tree of a configuration offers each export of an instance once at most, and starts each instance once at most.
pub fn made_trees_are_short()
    ensures { MadeTreesAreShort }
{}

/// A law: so does the tree of one module.
pub fn singles_are_short()
    ensures { SinglesAreShort }
{}
