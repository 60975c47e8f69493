//! The laws of how many bytes the file of a linked image has.
ghost use Rattle.image_sizes.specs.Laws.{LinkedImagesAreShort, LinkedImagesAreSized};

/// A law: the file of a linked image has no more bytes than the modules that are kept and what each instance adds.
pub fn linked_images_are_sized()
    ensures { LinkedImagesAreSized }
{}

/// A law: where the sum of the texts' sizes is at most 200,000,000, the file of a linked image has at most 536,870,912 bytes.
pub fn linked_images_are_short()
    ensures { LinkedImagesAreShort }
{}
