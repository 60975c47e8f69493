//! Where a signal comes.

ghost use Rattle.std.specs.Prelude.{◌≡◌, OnOk};
ghost use Rattle.place_walks.specs.Going.{HasCome, IsResting};
ghost use Rattle.place_walks.specs.Walks.{Visits};
ghost use Rattle.signal_survey.specs.Follows.{Begins, Follows, IsPlace};
ghost use Rattle.signal_survey.specs.Graph.{AreSurveyed, HasPlaces, HoldsCallers, HoldsRaisers, column_of, row_of};

use crate::graph::{Surveys, next_of};
use mesa_base::OutOfMemory;
use object_files::Image;
use place_walks::{Place, Table, Walk, visit, visit_all};
use signaller::SignalId;

/// The row of a signal in the table of where signals are raised.
pub fn row_of(signal: SignalId) -> usize
    ensures { result ≡ row_of signal }
{
    match signal {
        SignalId::Own(instance, _) => instance as usize + 1,
        _ => 0,
    }
}

/// Its column there.
pub fn column_of(signal: SignalId) -> usize
    ensures { result ≡ column_of signal }
{
    match signal {
        SignalId::Own(_, number) => number as usize,
        SignalId::BoundsFault => 0,
        SignalId::ZeroDivisor => 1,
        SignalId::NoInput => 2,
        SignalId::Unnamed => 3,
    }
}

// Comes to each place that follows one.
fn go_on(
    image: &Image,
    surveys: &Surveys,
    callers: &Table<Place>,
    walk: &mut Walk,
    round: usize,
    signal: SignalId,
    place: Place,
) -> Result<(), OutOfMemory>
    requires surveyed { AreSurveyed image.now surveys.now }
    requires callers { HoldsCallers image.now callers.now }
    requires place { IsPlace image.now place }
    ensures { OnOk result (Visits round (Follows image.now signal place) walk.old walk.new) }
{
    let Some(number) = place.position else {
        let places = callers.cell(place.instance as usize, place.procedure as usize);
        return visit_all(walk, round, places);
    };
    match next_of(image, surveys, place, number, signal) {
        Some(next) => visit(walk, round, next),
        None => Ok(()),
    }
}

/// Comes to each place where the signal comes.
pub fn come(
    image: &Image,
    surveys: &Surveys,
    raisers: &Table<Place>,
    callers: &Table<Place>,
    walk: &mut Walk,
    round: usize,
    signal: SignalId,
) -> Result<(), OutOfMemory>
    requires surveyed { AreSurveyed image.now surveys.now }
    requires raisers { HoldsRaisers image.now raisers.now }
    requires callers { HoldsCallers image.now callers.now }
    requires places { HasPlaces image.now walk.old.marks }
    requires rests { IsResting round walk.old }
    ensures come { OnOk result (HasCome (Begins image.now signal) (Follows image.now signal) round walk.new) }
    ensures places { OnOk result (HasPlaces image.now walk.new.marks) }
{
    visit_all(walk, round, raisers.cell(row_of(signal), column_of(signal)))?;
    'going: while let Some(place) = walk.work.pop() {
        go_on(image, surveys, callers, walk, round, signal, place)?;
    }
    Ok(())
}
