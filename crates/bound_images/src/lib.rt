//! What is so of the image that is linked from a configuration's tree: laws alone. No call of the program is here.
#![tactic(auto)]

mod laws;
mod singles;

pub use laws::{
    built_images_are_in_order, built_images_run_as_their_source, built_images_stand,
    built_images_want_the_host, built_programs_are_lawful, images_that_want_the_host_leave_to_it,
};
pub use link_tables;
pub use machine_ready;
pub use singles::{singles_are_built, singles_leave_to_the_host, singles_mean_their_module};
