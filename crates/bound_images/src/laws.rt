//! The laws of images that are built from a tree, and of the tree's program.

ghost use Rattle.bound_images.specs.Laws.{
  BuiltImagesAreInOrder,
  BuiltImagesRunAsTheirSource,
  BuiltImagesStand,
  BuiltImagesWantTheHost,
  BuiltProgramsAreLawful,
  ImagesThatWantTheHostLeaveToIt,
};

/// A law: the program of a tree is lawful, where an image is built from the tree and each item that is left to the loader is the
/// built-in interface's.
pub fn built_programs_are_lawful()
    ensures { BuiltProgramsAreLawful }
{}

/// A law: an image that is built from a tree stands for the program of the tree.
pub fn built_images_stand()
    ensures { BuiltImagesStand }
{}

/// A law: it wants nothing but what the host has, where each item that is left to the loader is the built-in interface's.
pub fn built_images_want_the_host()
    ensures { BuiltImagesWantTheHost }
{}

/// A law: the other way round, where a built image wants nothing but what the host has, each item that is left to the loader is the
/// built-in interface's.
pub fn images_that_want_the_host_leave_to_it()
    ensures { ImagesThatWantTheHostLeaveToIt }
{}

/// A law: a built image is in order, so that it can be made ready.
pub fn built_images_are_in_order()
    ensures { BuiltImagesAreInOrder }
{}

/// A law: the machine runs a built image to what the program of its tree means, where each item that is left to the loader is the
/// built-in interface's.
pub fn built_images_run_as_their_source()
    ensures { BuiltImagesRunAsTheirSource }
{}
