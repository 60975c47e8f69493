//! What the first walk finds.

ghost use Rattle.std.specs.Prelude.{◌+◌, length, IfOk};
ghost use Rattle.std.specs.List.{AllZip};
ghost use Rattle.machine_rules.specs.LookUps.{code_of};
ghost use Rattle.place_walks.specs.Going.{IsResting};
ghost use Rattle.signal_survey.specs.Fresh.{AreFresh, HasFresh, IsFreshRow};
ghost use Rattle.signal_survey.specs.Graph.{HasPlaces};

use crate::lookups::code_of;
use code_forms::{CodeProcedure, Phrase};
use mesa_base::{List, OutOfMemory};
use object_files::Image;
use place_walks::{Table, Walk};
use std::alloc::Global;

// A mark for what lies out of the procedure, and one for each phrase.
fn marks_of(alloc: Global, phrases: &[Phrase]) -> Result<List<usize>, OutOfMemory>
    ensures { IfOk result (AreFresh (length phrases.now + 1)) }
{
    let mut marks = List::of(alloc, 0)?;
    for _ in phrases {
        marks.push(0)?;
    }
    Ok(marks)
}

fn marks_of_procedures(
    alloc: Global,
    procedures: &[CodeProcedure],
) -> Result<Vec<List<usize>>, OutOfMemory>
    ensures { IfOk result (λ row. AllZip HasFresh procedures.now row.items) }
{
    let mut row = Vec::new(alloc);
    for procedure in procedures {
        row.push(marks_of(alloc, procedure.phrases.as_slice())?)?;
    }
    Ok(row)
}

fn marks_of_instance(
    alloc: Global,
    image: &Image,
    instance: usize,
) -> Result<Vec<List<usize>>, OutOfMemory>
    ensures { IfOk result (λ row. IsFreshRow (code_of image.now instance) row.items) }
{
    match code_of(image, instance) {
        Some(code) => marks_of_procedures(alloc, code.procedures.as_slice()),
        None => Ok(Vec::new(alloc)),
    }
}

/// A mark for each place, and no work yet.
pub fn walk_of(alloc: Global, image: &Image) -> Result<Walk, OutOfMemory>
    ensures places { IfOk result (λ walk. HasPlaces image.now walk.marks) }
    ensures rests { IfOk result (IsResting 1) }
{
    let mut marks = Table::new(alloc);
    for instance in 0..image.instances.len() {
        marks.add_row(marks_of_instance(alloc, image, instance)?)?;
    }
    Ok(Walk {
        marks,
        work: Vec::new(alloc),
    })
}
