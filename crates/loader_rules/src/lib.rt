//! Which image comes of several that are loaded one behind the other, and why none does: definitions and laws; no call of the program is here
//! (rule of this project).
#![tactic(auto)]

mod fault;
mod images;
mod laws;
pub mod limits;

pub use fault::LoadFault;
pub use images::Images;
pub use laws::{
    first_image_has_the_fault, loaded_images_are_in_order, loads_are_alike, loads_come_once,
    same_faces_are_equal, wanted_by_one,
};
