//! The end of a run with the turns that are left, and why a run comes to no end.

use machine_rules::End;

/// The end of a run and the turns that are left.
#[derive(Clone, Copy)]
pub struct Outcome {
    pub end: End,
    pub left: u64,
}

/// Why a run came to no end: the input or the output failed.
#[derive(Clone, Copy, PartialEq, Eq)]
pub enum RunFault {
    ReadFault,
    WriteFault,
}
