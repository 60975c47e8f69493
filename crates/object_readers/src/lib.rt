//! The reader of object files: a module of an earlier compilation, or the first fault of the bytes.
#![tactic(auto)]

mod bodies;
mod building;
mod export_rows;
mod import_rows;
mod link_rows;
mod reading;

pub use bodies::module_rows;
pub use building::object;
pub use export_rows::gives;
pub use interface_readers;
pub use module_readers;
pub use reading::{file_fault, read_object};
