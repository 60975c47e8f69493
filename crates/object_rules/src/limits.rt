//! The limits of an image's file, which are rules of this project. Definitions and code name them from here.

/// The most modules of an image.
pub const IMAGE_MODULES: u32 = 65_534;
