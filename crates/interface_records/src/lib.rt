//! Interfaces: their faces, what is wanted of them, and the built-in one.
#![tactic(auto)]

mod built_in;
mod interface;
mod laws;
mod sameness;
mod wanted;

pub use built_in::{io_face, iodefs};
pub use check_scopes;
pub use interface::{Constant, Constants, Interface, Interfaces, NamedType, NamedTypes};
pub use laws::built_in_can_be_spelled;
pub use sameness::{same_face, same_signature};
pub use typed_answers;
pub use typed_answers::mesa_types;
pub use wanted::{Wanted, WantedItem, Wanteds};
