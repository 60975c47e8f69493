//! What a text comes to that is compiled as a program, or as an interface under a stamp: the files that it asks for, and with the interfaces
//! read from them its module or its interface, or its first fault.
#![tactic(auto)]

mod asked;
mod beginning;
mod checking;
mod file_names;
mod laws;
mod purpose;
mod text_fault;

pub use asked::{asked_count, asked_file};
pub use beginning::{begun, tree_of};
pub use checking::{checked_interface, checked_program};
pub use file_names::is_file_base;
pub use laws::{
    defined_interfaces_can_be_spelled, definitions_come_to_one, faults_come_in_order,
    programs_come_to_one, read_modules_can_be_kept, stamps_need_no_interface, texts_begin_once,
    texts_have_one_tree,
};
pub use purpose::Purpose;
pub use text_fault::TextFault;
