//! The words of the checker: what names mean, the state of checking and what stands around a place, typed values, and questions on
//! types.
#![tactic(auto)]

mod around;
mod counts;
mod declaring;
mod frame;
mod growing;
mod known;
mod meaning;
mod names;
mod origins;
mod state;
mod strings;
mod typed;
mod types;

pub use around::{ArmHere, ArmLabel, Around, Labels, Seen};
pub use counts::{narrow, narrower, next, sum};
pub use frame::Frame;
pub use growing::{GrowingFields, copied_fields};
pub use known::Known;
pub use meaning::Meaning;
pub use names::{last_place, named, of_interface, qualified, type_named, word_base};
pub use origins::Origins;
pub use state::State;
pub use strings::Strings;
pub use typed::{Aim, Gave, Typed, of_kind};
pub use types::{
    array_parts, base_of, bounds, conforms, elements_of, fields, fields_size, is_cardinal,
    is_integer, is_long, is_ordinal, is_text, one_ordinal_base, same, sign_of, size,
    words_of_fields,
};
