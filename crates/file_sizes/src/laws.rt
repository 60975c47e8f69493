//! The laws of the sizes of files: those of interfaces, of objects and of images.
ghost use Rattle.file_sizes.specs.Laws.{ImagesAreSized, InterfacesAreSized, ObjectsAreSized};

/// A law: how many bytes faces take, and how few at least items and interfaces.
pub fn interfaces_are_sized()
    ensures { InterfacesAreSized }
{}

/// A law: the file of an object has as many bytes as its parts say.
pub fn objects_are_sized()
    ensures { ObjectsAreSized }
{}

/// A law: the file of an image has as many bytes as its parts say.
pub fn images_are_sized()
    ensures { ImagesAreSized }
{}
