//! Where an arm stands in a table of phrases.

/// An arm by the number of its phrase and its number in it.
#[derive(Clone, Copy)]
pub struct Place {
    pub phrase: usize,
    pub arm: usize,
}
