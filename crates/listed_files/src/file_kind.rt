//! The kinds of files that the program writes.

/// What a file holds.
#[derive(Clone, Copy)]
pub enum FileKind {
    /// An interface: NAME.mif.
    Interface,
    /// An object: NAME.mob.
    Object,
    /// An image: NAME.mim.
    Image,
}
