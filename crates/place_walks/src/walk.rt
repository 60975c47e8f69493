//! Walks over places.

ghost use Rattle.std.specs.Prelude.{◌≡◌, Contains, OnOk};
ghost use Rattle.place_walks.specs.Walks.{Visits, is_mark, mark_at, slot_of};

use crate::place::Place;
use crate::table::Table;
use mesa_base::OutOfMemory;

/// What walks leave: for each place the number of the last walk that came there, and the places from which the walk has not yet gone on.
#[derive(Drop)]
pub struct Walk {
    pub marks: Table<usize>,
    pub work: Vec<Place>,
}

fn slot_of(position: Option<u32>) -> usize
    ensures { result ≡ slot_of position }
{
    match position {
        None => 0,
        Some(phrase) => phrase as usize + 1,
    }
}

// The number of the last walk that came to the place; None where there is no such place.
fn mark_at(marks: &Table<usize>, place: Place) -> Option<usize>
    ensures { result ≡ mark_at marks.now place }
{
    let cell = marks.cell(place.instance as usize, place.procedure as usize);
    cell.get(slot_of(place.position)).copied()
}

/// Whether the walk of this number came to the place.
pub fn is_marked(marks: &Table<usize>, round: usize, place: Place) -> bool
    ensures { result ≡ is_mark round (mark_at marks.now place) }
{
    match mark_at(marks, place) {
        Some(mark) => mark == round,
        None => false,
    }
}

/// Comes to the place, where the walk was not yet there.
pub fn visit(walk: &mut Walk, round: usize, place: Place) -> Result<(), OutOfMemory>
    ensures { OnOk result (Visits round (λ x. x ≡ place) walk.old walk.new) }
{
    match mark_at(&walk.marks, place) {
        Some(mark) if mark != round => {
            let slot = slot_of(place.position);
            walk.work.push(place)?;
            walk.marks.set(
                place.instance as usize,
                place.procedure as usize,
                slot,
                round,
            );
            Ok(())
        }
        _ => Ok(()),
    }
}

/// Comes to each of these places.
pub fn visit_all(walk: &mut Walk, round: usize, places: &[Place]) -> Result<(), OutOfMemory>
    ensures { OnOk result (Visits round (Contains places.now) walk.old walk.new) }
{
    for place in places {
        visit(walk, round, *place)?;
    }
    Ok(())
}
