//! The table that gives the links of one import their numbers.
use mesa_base::Numbers;

/// Of an import the number of its first link, and for each item of its face how many used items stand before it; where it is
/// not used, how many there are.
#[derive(Drop)]
pub struct LinkTable {
    pub start: u32,
    pub ranks: Numbers,
}
