//! The law of the built-in interface. No call of the program is here.

ghost use Rattle.interface_records.specs.Laws.{BuiltInCanBeSpelled};

/// Files can spell the built-in interface: its names are names, its types are within their limits, and its counts fit.
#[tactic(auto, using(crate::proofs::BuiltIn::built_in_can_be_spelled))]
pub fn built_in_can_be_spelled()
    ensures { BuiltInCanBeSpelled }
{}
