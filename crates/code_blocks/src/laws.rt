//! The laws of the code of sound modules: it stands for them, is valid, and is short.
ghost use Rattle.code_blocks.specs.Laws.{JumpsAreRight, JumpsInsideAreRight, ModulesAreCoded, ModulesAreInOrder, ModulesAreShort, ModulesAreTranslated, OperandsAreInRange, PhrasesNest, PhrasesStand, RangesAreKept, RegionsAreTold, RegionsFillTheCode, StacksStand};

/// The code of each sound module stands for it.
#[tactic(auto, using(crate::proofs::Coding::modules_are_coded))]
pub fn modules_are_coded()
    ensures { ModulesAreCoded }
{}

/// The code and the phrases of a sound module have at most 32 bytes for each node of its tree.
#[tactic(auto, using(crate::proofs::ModuleWeights::modules_are_short))]
pub fn modules_are_short()
    ensures { ModulesAreShort }
{}

/// The instructions of each procedure of a sound module stand in order, one behind the other and within 32 bits.
#[tactic(auto, using(crate::proofs::InOrder::modules_are_in_order))]
pub fn modules_are_in_order()
    ensures { ModulesAreInOrder }
{}

/// The phrases of each procedure stand in the order of their ranges, and two ranges lie one behind the other, or the later
/// one in the other.
#[tactic(auto, using(crate::proofs::Nesting::phrases_nest))]
pub fn phrases_nest()
    ensures { PhrasesNest }
{}

/// The regions of each procedure follow each other: the body's, then those of the arms, phrase by phrase; the last one ends with the code.
#[tactic(auto, using(crate::proofs::Filling::regions_fill_the_code))]
pub fn regions_fill_the_code()
    ensures { RegionsFillTheCode }
{}

/// Each procedure's phrases are right, as valid code asks: their ranges begin and end at instructions, each lies in one region
/// and before those of its arms, which begin at instructions and follow each other.
#[tactic(auto, using(crate::proofs::PhraseRules::phrases_stand))]
pub fn phrases_stand()
    ensures { PhrasesStand }
{}

/// Each offset before the first arm is in the body's region, and each from an arm's beginning up to its end in that arm's.
#[tactic(auto, using(crate::proofs::Telling::regions_are_told))]
pub fn regions_are_told()
    ensures { RegionsAreTold }
{}

/// Conditional jumps and jumps back lead to an instruction of their region, forward or back.
#[tactic(auto, using(crate::proofs::JumpRules::jumps_inside_are_right))]
pub fn jumps_inside_are_right()
    ensures { JumpsInsideAreRight }
{}

/// Each jump of a sound module leads where valid code asks: a plain one forward and a jump back back in their region, a jump out of arms
/// to the region outward of them.
#[tactic(auto, using(crate::proofs::SpotRules::jumps_are_right))]
pub fn jumps_are_right()
    ensures { JumpsAreRight }
{}

/// Each instruction of a sound module has operands in range and stands where it may, and so are the words of each arm.
#[tactic(auto, using(crate::proofs::SpotRules::operands_are_in_range))]
pub fn operands_are_in_range()
    ensures { OperandsAreInRange }
{}

/// The code of a sound module keeps the counts and sizes that the code of each module keeps.
#[tactic(auto, using(crate::proofs::RangeRules::ranges_are_kept))]
pub fn ranges_are_kept()
    ensures { RangesAreKept }
{}

/// The depths beside the instructions of each procedure of a sound module are settled, and the rules on the operand stack hold with them:
/// each instruction finds the words that it takes and has room for those that it puts, each way to an instruction brings the depth
/// that stands beside it, jumps out of arms and returns find no words, and no code runs out of its region.
#[tactic(auto, using(crate::proofs::StackRules::stacks_stand))]
pub fn stacks_stand()
    ensures { StacksStand }
{}

/// The code of each sound module of at most 4,194,304 nodes stands for the module, is valid with the depths beside its instructions, keeps
/// the ranges of each module's code, and has at most 32 bytes for each node.
#[tactic(auto, using(crate::proofs::Translated::modules_are_translated))]
pub fn modules_are_translated()
    ensures { ModulesAreTranslated }
{}
