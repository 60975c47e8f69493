//! What checking says that a file can spell is exactly what the forms of files fit in version 2: laws alone. No call of the program is here.
#![tactic(auto)]

mod laws;

pub use laws::{
    built_in_fits, constant_types_fit, faces_fit, faces_of_interfaces_fit, fields_fit,
    interfaces_fit, items_fit, types_fit,
};
