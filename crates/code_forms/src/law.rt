//! The laws of valid code: its faults, its depths, and what a machine finds at each instruction.
ghost use Rattle.code_forms.specs.Exact.{NoFaultOfValid, OneDepth, OneFirstFault};
ghost use Rattle.code_forms.specs.Running.{RunsInRange};

/// Valid code has no first fault, so `validate` answers the one exactly where it does not answer the other.
pub fn no_fault_of_valid()
    ensures { NoFaultOfValid }
{}

/// Code has one first fault at most, so the one that `validate` answers is the only one.
pub fn one_first_fault()
    ensures { OneFirstFault }
{}

/// The depth before an instruction is the one on every way to it.
pub fn one_depth()
    ensures { OneDepth }
{}

/// What a machine finds at each instruction of valid code: words and room, the instructions that it leads to with
/// their depths, and operands in range. So it tests nothing of these.
pub fn runs_in_range()
    ensures { RunsInRange }
{}
