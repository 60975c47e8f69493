//! The laws of imports, shapes and images: what files can spell, what forms fit, and what is in order.
ghost use Rattle.read_files.specs.Laws.{
  ImagesOfFilesAreInOrder,
  ImagesThatFitAreInOrder,
  ImportsFit,
  ObjectsOfFilesAreInOrder,
  ShapesOfObjectsAreInOrder,
  ShapesOfObjectsCanBeSpelled,
  SpelledShapesAreInOrder,
};

/// A law: files can spell an import exactly where its form fits it.
pub fn imports_fit()
    ensures { ImportsFit }
{}

/// A law: a shape that files can spell is in order.
#[tactic(auto, using(crate::proofs::Shapes::spelled_shapes_are_in_order))]
pub fn spelled_shapes_are_in_order()
    ensures { SpelledShapesAreInOrder }
{}

/// A law: files can spell the shape of an object that its form fits.
#[tactic(auto, using(crate::proofs::Shapes::shapes_can_be_spelled))]
pub fn shapes_can_be_spelled()
    ensures { ShapesOfObjectsCanBeSpelled }
{}

/// A law: the shape of an object that its form fits is in order.
#[tactic(auto, using(crate::proofs::Shapes::shapes_are_in_order))]
pub fn shapes_are_in_order()
    ensures { ShapesOfObjectsAreInOrder }
{}

/// A law: an image that its form fits is in order, where its modules are whole.
#[tactic(auto, using(crate::proofs::Images::images_are_in_order))]
pub fn images_are_in_order()
    ensures { ImagesThatFitAreInOrder }
{}

/// A law: the shape of an object that a file holds is in order.
pub fn objects_of_files_are_in_order()
    ensures { ObjectsOfFilesAreInOrder }
{}

/// A law: an image that a file holds is in order.
pub fn images_of_files_are_in_order()
    ensures { ImagesOfFilesAreInOrder }
{}
