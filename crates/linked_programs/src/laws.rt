//! What is so of the trees of modules that can be linked, and of the images that are linked from them.

ghost use Rattle.linked_programs.specs.Laws.{LinkableShapesAreInOrder, LinkedImagesAreBuilt, SinglesAreOfTheirShape, SinglesAreOne, TreesAreOfTheirShapes, TreesAreOne};
ghost use Rattle.linked_programs.specs.Names.{LinkedNamesAgree};

/// A law: the shape of a module that can be linked is in order.
pub fn linkable_shapes_are_in_order()
    ensures { LinkableShapesAreInOrder }
{}

/// A law: the tree of a configuration is of the shapes of its components, and their faces agree.
pub fn trees_are_of_their_shapes()
    ensures { TreesAreOfTheirShapes }
{}

/// A law: so is the tree of one module of its shape.
pub fn singles_are_of_their_shape()
    ensures { SinglesAreOfTheirShape }
{}

/// A law: a configuration and the shapes of its components have one answer.
pub fn trees_are_one()
    ensures { TreesAreOne }
{}

/// A law: the shape of a module has one answer.
pub fn singles_are_one()
    ensures { SinglesAreOne }
{}

/// A law: the image that is linked from a tree without a bad item and the objects of its modules is built from them.
pub fn linked_images_are_built()
    ensures { LinkedImagesAreBuilt }
{}

/// A law: a linked image has the path of each instance of its program, and the name of each signal of that instance's module.
pub fn linked_names_agree()
    ensures { LinkedNamesAgree }
{}
