//! Objects and images in files: a form for each row of the format, the laws of each, and which bytes are a file of an object or an
//! image. No call of the program is here.
#![tactic(auto)]

mod laws;
pub mod limits;
mod object_fault;

pub use laws::{
    image_or_fault, object_or_fault, one_image, one_image_fault, one_image_spelling, one_object,
    one_object_fault, one_object_spelling,
};
pub use object_fault::ObjectFault;
