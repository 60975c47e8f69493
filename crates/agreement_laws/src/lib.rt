//! That the machine does what the source means: the law and its proof. No call of the program is here.
#![tactic(auto)]

mod laws;

pub use laws::{
    images_of_sources_are_never_stuck, images_run_as_their_source,
    sources_mean_what_their_images_do,
};
