//! The reader of image files: modules bound into instances, or the first fault of the bytes.
#![tactic(auto)]

mod building;
mod elements;
mod image_rows;
mod instance_rows;
mod link_fields;
mod lookups;
mod module_list;
mod numbers;
mod offer_rows;
mod paths;
mod reading;
mod tables;
mod wanted_rows;

pub use object_readers;
pub use object_readers::interface_readers;
pub use reading::read_image;
