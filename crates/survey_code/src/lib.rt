//! What a survey of escaping signals takes of one procedure: where signals may come, and what its phrases let past (rule of this project).
#![tactic(auto)]

mod around;
mod ending;
mod event;
mod graph;
mod laws;
mod passing;
mod positions;
mod reaching;
mod site;
mod survey;
mod surveyed;

pub use around::{beyonds_of, parents_of};
pub use ending::ending_of;
pub use event::{Event, event_of};
pub use graph::graph_of;
pub use laws::{calls_by_event, raises_by_event, stops_by_ending};
pub use passing::passings_of;
pub use positions::positions_of;
pub use reaching::{Graph, reach};
pub use site::sites_of;
pub use survey::survey_procedure;
pub use surveyed::{Ending, Endings, Passing, Passings, Site, Sites, Surveyed};
