//! Where signals come.

/// Where a signal comes: at a phrase of a procedure of an instance, by its number, or out of the procedure.
#[derive(Clone, Copy)]
pub struct Place {
    pub instance: u32,
    pub procedure: u32,
    pub position: Option<u32>,
}
