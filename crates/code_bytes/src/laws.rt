//! The law that each number of the code chosen for a sound module has the bytes that a file has for it.
ghost use Rattle.code_bytes.specs.Laws.{ChosenCodesAreInBytes};

/// A law: each number of the code that is chosen for a sound module of at most 4,194,304 nodes has the bytes that a file has for
/// it, where four bytes count its links, and two the arms that each jump leaves.
pub fn chosen_codes_are_in_bytes()
    ensures { ChosenCodesAreInBytes }
{}
