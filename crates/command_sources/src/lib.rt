//! From the files of a folder to what a command line runs or writes: a configuration or one module alone, with its tree, its modules and what
//! its links are bound to; behind it the files of its program and the machine that is ready to run; a configuration with the objects of its
//! components; and the interface of definitions.
#![tactic(auto)]

mod bases;
mod configurations;
mod definitions;
mod faults;
mod laws;
mod making;
mod modules;
mod objects;
mod sources;

pub use definitions::interface_defined_in;
pub use faults::unmade;
pub use laws::{definitions_can_be_written, modules_of_files_can_be_kept};
pub use linked_objects;
pub use making::{MadeProgram, made};
pub use objects::{BoundObjects, bound_of_config, let_objects_go};
pub use program_files;
pub use sources::{BoundSource, source_of_config, source_of_module};
