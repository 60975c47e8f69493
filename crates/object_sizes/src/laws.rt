//! The laws of the size of a text's object, and of what an instance of it adds to an image.
ghost use Rattle.object_sizes.specs.Laws.{InstancesAreShort, ObjectsAreShort};

/// A law: the file of a text's object has at most 160 bytes for each byte of the text and 4 for each byte of its interfaces' files, and 1,000 more.
pub fn objects_are_short()
    ensures { ObjectsAreShort }
{}

/// A law: what an instance of a text's module adds to an image, besides its own entry, is at most that.
pub fn instances_are_short()
    ensures { InstancesAreShort }
{}
