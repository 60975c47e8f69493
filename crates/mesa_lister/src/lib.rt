//! The listing of a file: what an interface, an object or an image prints as, or the first fault of the bytes.
#![tactic(auto)]

mod listing;
mod printing;
mod reading;

pub use image_readers;
pub use image_readers::object_readers;
pub use listing::list;
