//! From a configuration and the objects of its components, as files hold them, to its tree and to the file of its image. Values alone: no
//! folder and no file is touched.
#![tactic(auto)]

mod files;
mod laws;
mod shapes;
mod trees;

pub use files::linked_file;
pub use laws::{filed_trees_are_in_order, versions_fit_the_second};
pub use linked_programs;
pub use linked_programs::built_runs;
pub use trees::object_tree_of;
