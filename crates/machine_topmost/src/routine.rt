//! What the topmost activation runs: a procedure, of a module of an image.

use code_forms::{CodeProcedure, ModuleCode};
use machine_rules::object_files::Image;

/// What the topmost activation runs: a procedure of a module, which has this number in an image. `targets` has the number
/// of the entry to which each entry jumps, and the activation's operands begin at the floor.
#[derive(Clone, Copy)]
pub struct Routine<'a> {
    pub image: &'a Image,
    pub number: u16,
    pub code: &'a ModuleCode,
    pub procedure: &'a CodeProcedure,
    pub targets: &'a [u32],
    pub floor: usize,
}
