//! What several images that are loaded as one do: what the trees from which they are built mean as one tree. Laws alone; no call of the program is here.
#![tactic(auto)]

mod laws;

pub use laws::{
    loaded_images_run_as_their_source, loaded_images_stand, loaded_images_want_the_host,
    loaded_programs_are_lawful, made_trees_have_an_outermost_scope,
    single_trees_have_an_outermost_scope,
};
