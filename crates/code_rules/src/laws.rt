//! The laws of the code that stands for constructs: its order and words, its jumps, and the slots of variables.
ghost use Rattle.code_rules.specs.Laws.{CodeIsWhole, CodeLiesInOrder, JumpsLeaveTheirArms, OwnCodeJoins, OwnCodeKeepsWords, ScopesAreTold, SlotsAreApart};

/// The code that stands for a construct is a run of whole instructions, and the phrases that are enabled around the
/// construct are enabled at each of them.
#[tactic(auto, using(crate::proofs::Whole::code_is_whole))]
pub fn code_is_whole()
    ensures { CodeIsWhole }
{}

/// The code that stands for a construct ends no earlier than it begins.
#[tactic(auto, using(crate::proofs::Whole::code_lies_in_order))]
pub fn code_lies_in_order()
    ensures { CodeLiesInOrder }
{}

/// The own code of checks, indexes, operators, keyed lists, declarations and loops takes from the operand stack and puts
/// there as many words as its row says, by the table of the instructions.
#[tactic(auto, using(crate::proofs::Depths::own_code_keeps_words))]
pub fn own_code_keeps_words()
    ensures { OwnCodeKeepsWords }
{}

/// The points that are visible in a sound body have their ways: a jump leaves as many arms as it says, whether the points
/// lie at offsets of the code or are counted alone.
#[tactic(auto, using(crate::proofs::Agreement::jumps_leave_their_arms))]
pub fn jumps_leave_their_arms()
    ensures { JumpsLeaveTheirArms }
{}

/// The arms that the jumps of a sound body leave, as they are counted, are those that its tree says.
#[tactic(auto, using(crate::proofs::Counted::scopes_are_told))]
pub fn scopes_are_told()
    ensures { ScopesAreTold }
{}

/// Own code of two parts is that of the first and behind it that of the second.
#[tactic(auto, using(crate::proofs::Whole::own_code_joins))]
pub fn own_code_joins()
    ensures { OwnCodeJoins }
{}

/// Each variable has slots of its own, one before the other, and those of a procedure before its scratch words.
#[tactic(auto, using(crate::proofs::Apart::slots_are_apart))]
pub fn slots_are_apart()
    ensures { SlotsAreApart }
{}
