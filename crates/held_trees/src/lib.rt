//! Trees that are held while more is read or checked. That a tree may be let go takes long to prove, and each crate that lets one go
//! would prove it again: it is proved once, beside the tree, and the crates above let trees go by these calls alone.
#![tactic(auto)]

mod held;
mod letting;
mod names;

pub use held::{both, boxed, boxed_pair, pushed, put, share, shared};
pub use letting::{InBox, InList, InShared, InSharedList, LetGo};
pub use mesa_base;
