//! The law that the form of images fits an image that is linked from objects which files can spell.
ghost use Rattle.linked_files.specs.Laws.{LinkedImagesFit};

/// A law: the form of images fits an image that is linked from objects which files can spell.
pub fn linked_images_fit()
    ensures { LinkedImagesFit }
{}
