//! From the checked modules of a configuration's components to the machine that is ready to run. Values alone: no folder and no
//! file is touched.
#![tactic(auto)]

mod binding;
mod laws;
mod linking;
mod machines;
mod objects;
mod shapes;
mod trees;

pub use binding::{bound, let_bindings_go};
pub use built_runs;
pub use built_runs::import_binder;
pub use laws::{
    linkable_shapes_are_in_order, linked_images_are_built, linked_names_agree,
    singles_are_of_their_shape, singles_are_one, trees_are_of_their_shapes, trees_are_one,
};
pub use linking::linked_image;
pub use machines::{machine_of, readied};
pub use objects::objects_of;
pub use shapes::{let_shapes_go, put_shape};
pub use trees::{config_tree_of, module_tree_of};
