//! The tree of a configuration: what its text and the shapes of its components make, the tree of one module alone, and where the
//! exports of its instances go (Language Manual, chapter 7; the faults are rules of this project).
#![tactic(auto)]

mod alone;
mod control;
mod differing;
mod expanding;
mod face_key;
mod finishing;
mod growing;
mod growth;
mod late_faults;
mod outward;
mod reaching;
mod records;

pub use alone::single;
pub use expanding::expand;
pub use outward::{Onward, OutsideRecords, export_records, import_records, step_outward};
pub use reaching::{Outgoings, outgoing};
