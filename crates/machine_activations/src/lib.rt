//! The activations of the frame machine in one region of words, with a table of them.
#![tactic(auto)]

mod beginning;
mod calling;
mod frames;
mod framing;
mod growing;
mod laws;
mod row;
mod stack;

pub use beginning::begin;
pub use calling::{Sequel, call, give_back};
pub use frames::{give, move_words, owner_of, wait};
pub use framing::add_frame;
pub use growing::make_room;
pub use laws::runs_as_defined;
pub use row::{Kind, Layout, Reason, Row, Target};
pub use stack::{Stack, row_of};
