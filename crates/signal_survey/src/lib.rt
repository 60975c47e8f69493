//! The signals that may escape an image.
#![tactic(auto)]

mod calling;
mod catching;
mod coming;
mod escaping;
mod fitting;
mod graph;
mod happening;
mod laws;
mod linking;
mod listing;
mod lookups;
mod raising;
mod shapes;
mod signals;
mod surveying;
mod surveys;
mod walks;

pub use laws::comes_where_reached;
pub use surveying::{Escapes, survey};
