//! The law that the numbers in the blocks of a sound module are in the range of their types.
ghost use Rattle.code_ranges.specs.Ranges.{BodiesAreInRange};

/// No number in the block of a body of a sound module of at most 4,194,304 nodes is above what its type holds, and the slots of its
/// hidden words have 16 bits.
pub fn bodies_are_in_range()
    ensures { BodiesAreInRange }
{}
