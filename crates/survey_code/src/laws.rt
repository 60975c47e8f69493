//! The laws of events and endings. No call of the program is here.

ghost use Rattle.survey_code.specs.Laws.{RaisesByEvent, CallsByEvent, StopsByEnding};

/// A law: an instruction may raise a signal exactly where its event does.
#[tactic(auto, using(crate::proofs::Raising::raises_by_event))]
pub fn raises_by_event()
    ensures { RaisesByEvent }
{}

/// A law: an instruction may call a procedure exactly where its event does.
#[tactic(auto, using(crate::proofs::Raising::calls_by_event))]
pub fn calls_by_event()
    ensures { CallsByEvent }
{}

/// A law: an arm lets no signal past exactly where it ends so.
#[tactic(auto, using(crate::proofs::Stopping::stops_by_ending))]
pub fn stops_by_ending()
    ensures { StopsByEnding }
{}
