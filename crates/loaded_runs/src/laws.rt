//! The laws of loaded images. No call of the program is here.

ghost use Rattle.loaded_runs.specs.Laws.{
  LoadedImagesRunAsTheirSource,
  LoadedImagesStand,
  LoadedImagesWantTheHost,
  LoadedProgramsAreLawful,
  MadeTreesHaveAnOutermostScope,
  SingleTreesHaveAnOutermostScope,
};

/// A law: an image that is loaded of several stands for the program of their trees as one.
pub fn loaded_images_stand()
    ensures { LoadedImagesStand }
{}

/// A law: that program is lawful, where the loaded image wants nothing but what the host has.
pub fn loaded_programs_are_lawful()
    ensures { LoadedProgramsAreLawful }
{}

/// A law: and so it is where each tree leaves what is called as the built-in interface to that interface.
pub fn loaded_images_want_the_host()
    ensures { LoadedImagesWantTheHost }
{}

/// A law: the machine runs the loaded image to what that program means.
pub fn loaded_images_run_as_their_source()
    ensures { LoadedImagesRunAsTheirSource }
{}

/// A law: what is asked of the outermost scope of a tree is so of each tree that is made of a configuration.
pub fn made_trees_have_an_outermost_scope()
    ensures { MadeTreesHaveAnOutermostScope }
{}

/// A law: and of the tree of one module by itself.
pub fn single_trees_have_an_outermost_scope()
    ensures { SingleTreesHaveAnOutermostScope }
{}
