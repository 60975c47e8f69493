//! What a run has left.

use machine_calls::Coming;

/// What a run has left: turns, and what is known of the input that the program has not taken.
#[derive(Clone, Copy)]
pub struct Remaining {
    pub turns: u64,
    pub ahead: Option<Coming>,
}
