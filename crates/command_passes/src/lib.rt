//! The passes of a command line over the files of a folder, to interfaces and modules.
#![tactic(auto)]

mod file_name;
mod interfaces;
mod modules;
mod objects;
mod stop;

pub use command_rules;
pub use command_rules::checked_texts;
pub use file_name::{FileName, file_named};
pub use image_readers;
pub use interfaces::{interface_of_file, interfaces_of};
pub use modules::{faulty, module_of_file};
pub use objects::{image_of_file, object_of_file};
pub use stop::{Stop, unfit, unread};
