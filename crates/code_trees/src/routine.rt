//! What the translation of a procedure needs: its module's links and globals, and its own variables.
use crate::layout::Layout;
use crate::links::Links;

/// What of a procedure its translation needs: the links of its module, the module's globals, and its own variables.
#[derive(Drop)]
pub struct Routine<'a> {
    pub links: Links<'a>,
    pub globals: Layout<'a>,
    pub locals: Layout<'a>,
}
