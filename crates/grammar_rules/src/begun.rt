//! What of an expression was taken before the rest of it is read: nothing, a name or a NOT.
use mesa_base::{Identifier, Place};

/// What of an expression was taken already, where that decided that it is one.
#[derive(Drop)]
pub enum Begun {
    Fresh,
    AtName(Identifier),
    AtNot(Place),
}
