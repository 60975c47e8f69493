//! The run of an image that is linked from a configuration's tree, in the words of what the tree's program means.
#![tactic(auto)]

mod running;

pub use bound_images::{link_tables, machine_ready};
pub use import_binder;
pub use import_binder::config_tree;
pub use running::{TypedModules, run_image};
