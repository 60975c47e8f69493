//! What a text is compiled as.

use mesa_base::Stamp;

/// A program has no stamp, and the definitions of an interface have one.
#[derive(Clone, Copy)]
pub enum Purpose {
    Program,
    Interface(Stamp),
}
