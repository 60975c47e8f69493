//! From the checked modules of a configuration and its tree to the bytes of all files of the program. Values alone: no folder and no file is
//! touched.
#![tactic(auto)]

mod filing;
mod letting_go;
mod objects;
mod one_object;
mod size_fault;

pub use filing::{FiledProgram, program_files};
pub use one_object::object_file;
pub use size_fault::SizeFault;
