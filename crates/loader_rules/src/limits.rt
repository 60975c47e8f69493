//! The limits of loading, which are rules of this project. Definitions and code name them from here.

/// The most images that are loaded as one.
pub const MOST_IMAGES: usize = 16;
