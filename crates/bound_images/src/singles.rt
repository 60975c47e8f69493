//! One module that imports nothing but the built-in interface, as a tree by itself.

ghost use Rattle.bound_images.specs.Single.{
  SinglesAreBuilt,
  SinglesLeaveToTheHost,
  SinglesMeanTheirModule,
};

/// A law: the image that is linked for such a module alone is built.
pub fn singles_are_built()
    ensures { SinglesAreBuilt }
{}

/// A law: what it leaves to the loader is the built-in interface's.
pub fn singles_leave_to_the_host()
    ensures { SinglesLeaveToTheHost }
{}

/// A law: the program of its tree is that of the module.
pub fn singles_mean_their_module()
    ensures { SinglesMeanTheirModule }
{}
