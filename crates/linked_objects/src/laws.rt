//! What is so of objects that came of files, and of the trees of their shapes.
ghost use Rattle.linked_objects.specs.Laws.{FiledTreesAreInOrder, VersionsFitTheSecond};

/// A law: what the form of objects fits in some version it fits in version 2, so an object of a file can be spelled in that one.
pub fn versions_fit_the_second()
    ensures { VersionsFitTheSecond }
{}

/// A law: a tree of the shapes of objects that came of files is in order, so it can be bound.
pub fn filed_trees_are_in_order()
    ensures { FiledTreesAreInOrder }
{}
