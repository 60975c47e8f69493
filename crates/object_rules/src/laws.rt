//! The laws of files of objects and images: one value, one spelling in a version, and one first fault at most.
ghost use Rattle.object_rules.specs.Exact.{OneObject, OneObjectSpelling, OneObjectFault, ObjectOrFault, OneImage, OneImageSpelling, OneImageFault, ImageOrFault};

/// Bytes are the file of one object at most, in one version, depths aside.
pub fn one_object()
    ensures { OneObject }
{}

/// An object has one file at most in a version.
pub fn one_object_spelling()
    ensures { OneObjectSpelling }
{}

/// Bytes have one first fault at most as the file of an object.
pub fn one_object_fault()
    ensures { OneObjectFault }
{}

/// Bytes that are an object's file have no fault.
pub fn object_or_fault()
    ensures { ObjectOrFault }
{}

/// Bytes are the file of one image at most, in one version, depths aside.
pub fn one_image()
    ensures { OneImage }
{}

/// An image has one file at most in a version.
pub fn one_image_spelling()
    ensures { OneImageSpelling }
{}

/// Bytes have one first fault at most as the file of an image.
pub fn one_image_fault()
    ensures { OneImageFault }
{}

/// Bytes that are an image's file have no fault.
pub fn image_or_fault()
    ensures { ImageOrFault }
{}
