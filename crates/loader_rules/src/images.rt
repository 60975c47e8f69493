//! The images that are loaded.

use object_files::Image;

/// Images in the order in which they are loaded. They come as a `Vec`, since a `List` hands out no element by value.
pub type Images = Vec<Image>;
