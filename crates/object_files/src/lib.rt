//! Objects and images: a compiled module, and modules bound into instances that can be run.
#![tactic(auto)]

mod image;
mod object;

pub use code_forms;
pub use image::{Image, Instance, Instances, Link, LinkTable, LinkTables, Offer, Offers};
pub use interface_records::typed_answers;
pub use object::{Object, Objects};
