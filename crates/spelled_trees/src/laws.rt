//! The laws of the paths, records and names in trees of configurations.
ghost use Rattle.spelled_trees.specs.Laws.{ParsedNamesAreNames, SinglesCanBeSpelled, TreesCanBeSpelled};

use written_trees::tokens_are_within;

/// A law: in a tree of a configuration whose identifiers are names each instance has a path of 1 to 32 names, no two have the
/// same, and the records that it exports have names.
pub fn trees_can_be_spelled()
    ensures { TreesCanBeSpelled }
{}

/// A law: so it is in the tree of one module by itself, where its name is one.
pub fn singles_can_be_spelled()
    ensures { SinglesCanBeSpelled }
{}

/// A law: each identifier of a configuration that the grammar gives of the tokens of a text is a name.
pub fn parsed_names_are_names()
    ensures { ParsedNamesAreNames }
{
    tokens_are_within();
}
