//! Whether a signal may escape.

ghost use Rattle.std.specs.Prelude.{◌≡◌, ◌↔◌, ◌+◌, None, IfOk, IsTrue, OnOk};
ghost use Rattle.std.specs.List.{list_any};
ghost use Rattle.survey_rules.specs.Escapes.{Escapes};
ghost use Rattle.place_walks.specs.Going.{IsResting};
ghost use Rattle.place_walks.specs.Walks.{is_mark, mark_at};
ghost use Rattle.signal_survey.specs.Follows.{place_at};
ghost use Rattle.signal_survey.specs.Graph.{AreSurveyed, HasPlaces, HoldsCallers, HoldsRaisers};

use crate::coming::come;
use crate::graph::Surveys;
use crate::laws::comes_where_reached;
use mesa_base::OutOfMemory;
use object_files::Image;
use place_walks::{Place, Table, Walk, is_marked};
use signaller::SignalId;

// Out of the body of an instance.
fn out_of_body(instance: u32) -> Place
    ensures { result ≡ place_at instance 0 None }
{
    Place {
        instance,
        procedure: 0,
        position: None,
    }
}

// Whether the walk came out of the body of one of these instances.
fn came_out(marks: &Table<usize>, round: usize, control: &[u32]) -> bool
    ensures { result ≡ list_any (λ j. is_mark round (mark_at marks.now (place_at j 0 None))) control.now }
{
    control
        .iter()
        .any(|instance| is_marked(marks, round, out_of_body(*instance)))
}

/// Whether the signal may escape.
pub fn may_escape(
    image: &Image,
    surveys: &Surveys,
    raisers: &Table<Place>,
    callers: &Table<Place>,
    walk: &mut Walk,
    round: usize,
    signal: SignalId,
) -> Result<bool, OutOfMemory>
    requires surveyed { AreSurveyed image.now surveys.now }
    requires raisers { HoldsRaisers image.now raisers.now }
    requires callers { HoldsCallers image.now callers.now }
    requires places { HasPlaces image.now walk.old.marks }
    requires rests { IsResting round walk.old }
    ensures escapes { IfOk result (λ may. IsTrue may ↔ Escapes image.now signal) }
    ensures rests { OnOk result (IsResting (round + 1) walk.new) }
    ensures places { OnOk result (HasPlaces image.now walk.new.marks) }
{
    comes_where_reached();
    come(image, surveys, raisers, callers, walk, round, signal)?;
    Ok(came_out(&walk.marks, round, image.control.as_slice()))
}
