//! The run of an image, in the words of what its source means.
#![tactic(auto)]

mod running;

pub use frame_machine;
pub use running::run_image;
