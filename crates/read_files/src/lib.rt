//! What is so of objects and images that were read from files: laws alone. No call of the program is here.
#![tactic(auto)]

mod laws;

pub use laws::{
    images_are_in_order, images_of_files_are_in_order, imports_fit, objects_of_files_are_in_order,
    shapes_are_in_order, shapes_can_be_spelled, spelled_shapes_are_in_order,
};
