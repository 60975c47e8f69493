//! Types as they are written: what limits them, the elements of enumerations, which types index an array, and the subrange that two
//! bounds make.
#![tactic(auto)]

mod bounds;
mod elements;
mod limits;

pub use bounds::{bound, interval_base, subrange};
pub use elements::declare_elements;
pub use limits::{is_index, limited};
