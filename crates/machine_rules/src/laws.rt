//! The laws of the machine: runs have one result and are never stuck, and jumps out of arms unwind.
ghost use Rattle.machine_rules.specs.Laws.{EndsAtMostOnce, HasOneResult, IsNeverStuck};
ghost use Rattle.machine_rules.specs.Unwinding.{JumpsUnwind, JumpsOfRunsUnwind};

/// From any state of any image, its code valid or not, the machine comes to at most one end.
#[tactic(auto, using(crate::proofs::OneResult::ends_at_most_once))]
pub fn ends_at_most_once()
    ensures { EndsAtMostOnce }
{}

/// An image whose code is valid has exactly one result for each input, whether or not a fault follows it, and each bound
/// of turns: every run comes to an end.
#[tactic(auto, using(crate::proofs::OneResult::has_one_result))]
pub fn one_result()
    ensures { HasOneResult }
{}

/// The machine is never stuck on an image that can be run: what each instruction, each arm, each return and each jump
/// needs is there.
pub fn never_stuck()
    ensures { IsNeverStuck }
{}

/// A jump out of arms runs the first UNWIND arm of each phrase that is enabled in an activation which it gives up, innermost
/// first and from the topmost activation down, those of its target's own frame aside; each once, and then it comes to its
/// target. Or else one of them does not come to its end: the run stops in it, or another jump takes the place of this one.
#[tactic(auto, using(crate::proofs::Unwinding::jumps_unwind))]
pub fn jumps_unwind()
    ensures { JumpsUnwind }
{}

/// So it is wherever a run of an image whose code is valid comes to a jump out of arms.
#[tactic(auto, using(crate::proofs::Unwinding::jumps_of_runs_unwind))]
pub fn jumps_of_runs_unwind()
    ensures { JumpsOfRunsUnwind }
{}
