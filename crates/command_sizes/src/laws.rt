//! The laws of size sums.
ghost use Rattle.command_sizes.specs.Grounds.{Grounds};
ghost use Rattle.command_sizes.specs.Laws.{FilesAreSmall, ObjectsAreSmall, SmallCallsAreComplete, SumsAreTold, TooLargeComesOnlySo};

use command_laws::{never_answered, passes_are_exact};
use command_rules::checked_texts::{read_modules_can_be_kept, texts_begin_once};
use command_rules::linked_programs::{singles_are_of_their_shape, trees_are_of_their_shapes};
use file_sizes::{images_are_sized, objects_are_sized};
use image_sizes::linked_images_are_short;
use object_sizes::{instances_are_short, objects_are_short};
use spelled_laws::{built_in_fits, interfaces_fit};
use spelled_trees::{parsed_names_are_names, singles_can_be_spelled, trees_can_be_spelled};
use tree_sizes::{made_trees_are_short, singles_are_short};

fn grounds()
    ensures { Grounds }
{
    texts_begin_once();
    read_modules_can_be_kept();
    interfaces_fit();
    built_in_fits();
    parsed_names_are_names();
    trees_can_be_spelled();
    singles_can_be_spelled();
    trees_are_of_their_shapes();
    singles_are_of_their_shape();
    made_trees_are_short();
    singles_are_short();
    objects_are_sized();
    images_are_sized();
    objects_are_short();
    instances_are_short();
    linked_images_are_short();
    passes_are_exact();
}

/// A law: a call that compiles texts has one size sum.
pub fn sums_are_told()
    ensures { SumsAreTold }
{
    grounds();
}

/// A law: the file of a text's object has at most 160 bytes for each byte of the text and 4 for each byte of its interface files, and 1,000 more.
pub fn objects_are_small()
    ensures { ObjectsAreSmall }
{
    grounds();
}

/// A law: where the size sum of a call is at most 200,000,000, no file that it writes has more than 536,870,912 bytes.
pub fn files_are_small()
    ensures { FilesAreSmall }
{
    grounds();
}

/// A law: `go` and `compile NAME` answer TooLarge only where the size sum is above 200,000,000 and a file of theirs has more than 536,870,912 bytes;
/// `compile NAME STAMP` and `bind` only where their one file has.
pub fn too_large_comes_only_so()
    ensures { TooLargeComesOnlySo }
{
    sums_are_told();
    files_are_small();
    never_answered();
}

/// A law: with a size sum of at most 200,000,000, a text that is checked has its object's file, and what binds and wants nothing but the host's items is
/// written and run as its program means.
pub fn small_calls_are_complete()
    ensures { SmallCallsAreComplete }
{
    files_are_small();
    passes_are_exact();
}
