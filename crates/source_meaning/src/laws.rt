//! The laws of what programs mean: one result, an end, and what more turns or more input change.
ghost use Rattle.source_meaning.specs.Laws.{AlwaysEnds, BoundsAreCuts, FaultsAreCuts, FuelNeverShows, HasOneResult, InputIsTakenInOrder, NothingIsLeftStanding, PhrasesArePassedAsFound};

/// A program has one result for each input and each number of turns, and no other.
#[tactic(auto, using(crate::proofs::Whole::has_one_result))]
pub fn one_result()
    ensures { HasOneResult }
{}

/// The meaning is one function: fuel above the turns is enough, and more of it changes nothing.
#[tactic(auto, using(crate::proofs::Fuel::fuel_never_shows))]
pub fn fuel_never_shows()
    ensures { FuelNeverShows }
{}

/// A statement, an expression, a call, a start and a raise leave as many activations as they found, and each frame as it
/// was found (rule of this project).
#[tactic(auto, using(crate::proofs::Standing::nothing_is_left_standing))]
pub fn nothing_is_left_standing()
    ensures { NothingIsLeftStanding }
{}

/// A jump, or any other answer, that goes through a phrase leaves as many activations as it found, and each frame as it was
/// found, also where it runs the phrase's UNWIND arm, and whatever that arm does.
#[tactic(auto, using(crate::proofs::Standing::phrases_are_passed_as_found))]
pub fn phrases_are_passed_as_found()
    ensures { PhrasesArePassedAsFound }
{}

/// A lawful program comes to an end: it is done, or a signal is not caught, or its turns are spent, or its frames are full,
/// or it is broken off, and that only where a fault follows the input.
#[tactic(auto, using(crate::proofs::Ends::always_ends))]
pub fn always_ends()
    ensures { AlwaysEnds }
{}

/// With more turns the output begins with the one before, and an end that was not `Spent` is the same, with as many
/// turns more left.
pub fn bounds_are_cuts()
    ensures { BoundsAreCuts }
{}

/// With more input in the place of a fault the output begins with the one before, and an end that was not `Broken` is the
/// same, with as much more of the input left.
pub fn faults_are_cuts()
    ensures { FaultsAreCuts }
{}

/// What is taken of the input is taken from its front, so no more is taken than stands there.
#[tactic(auto, using(crate::proofs::Whole::input_is_taken_in_order))]
pub fn input_is_taken_in_order()
    ensures { InputIsTakenInOrder }
{}
