//! How the rounds of a loop are counted.
use mesa_types::Given;

/// How the rounds of a loop are counted: not at all, or in three hidden words from a slot on, downward where the last is true.
#[derive(Clone, Copy)]
pub enum Counter {
    Uncounted,
    CountedIn(u16, Given, bool),
}
