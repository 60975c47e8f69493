//! Which signals may escape.

ghost use Rattle.std.specs.Prelude.{ℕ, AllPairs, Contains, IfOk};
ghost use Rattle.signaller.specs.declared.signal_id.SignalId.{SignalId as TheSignal};
ghost use Rattle.survey_rules.specs.Escapes.{Escapes};
ghost use Rattle.survey_rules.specs.Survey.{IsSurvey, Precedes};
ghost use Rattle.place_walks.specs.Going.{IsResting};
ghost use Rattle.signal_survey.specs.Graph.{AreSurveyed, HasPlaces, HoldsCallers, HoldsRaisers};

use crate::escaping::may_escape;
use crate::graph::Surveys;
use mesa_base::{List, OutOfMemory};
use object_files::Image;
use place_walks::{Place, Table, Walk};
use signaller::SignalId;
use std::alloc::Global;

/// Those of an image's signals that may escape, in their order.
pub fn escaping(
    alloc: Global,
    image: &Image,
    surveys: &Surveys,
    raisers: &Table<Place>,
    callers: &Table<Place>,
    walk: &mut Walk,
    signals: &[SignalId],
) -> Result<List<SignalId>, OutOfMemory>
    requires surveyed { AreSurveyed image.now surveys.now }
    requires raisers { HoldsRaisers image.now raisers.now }
    requires callers { HoldsCallers image.now callers.now }
    requires places { HasPlaces image.now walk.old.marks }
    requires rests { IsResting 1 walk.old }
    requires in_order { AllPairs Precedes signals.now }
    requires all { (s : TheSignal) → Escapes image.now s → Contains signals.now s }
    ensures { IfOk result (IsSurvey image.now) }
{
    let mut found = List::new(alloc);
    for (number, signal) in signals.iter().enumerate() {
        if may_escape(image, surveys, raisers, callers, walk, number + 1, *signal)? {
            found.push(*signal)?;
        }
    }
    Ok(found)
}
