//! What a name has led to, and what its suffixes lead to from there.
#![tactic(auto)]

mod brackets;
mod fields;
mod keys;
mod reached;

pub use brackets::{Bracketed, at_index, indexed, text_at};
pub use check_values;
pub use fields::{Found, field, field_named};
pub use keys::places;
pub use reached::{
    Reached, Shape, Target, Use, led_to, let_meaning_go, may_apply, performed, settled, shape_of,
    stored, value,
};
