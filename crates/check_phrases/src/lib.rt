//! Whether a catch phrase stands in a part of a text, outside of the statements in it: the statement or declaration that holds it has a
//! number.
#![tactic(auto)]

mod holding;

pub use holding::{holds, interval_holds, items_hold, left_holds, raise_holds};
