//! Tables with nothing in them yet.

ghost use Rattle.std.specs.Prelude.{◌≡◌, ◌+◌, ◌<◌, Some, IfOk, OnOk, length};
ghost use Rattle.code_forms.specs.Valid.{Valid};
ghost use Rattle.machine_rules.specs.LookUps.{code_of};
ghost use Rattle.machine_ready.specs.Order.{ImageInOrder};
ghost use Rattle.signal_survey.specs.Ranges.{AreValid};
ghost use Rattle.signal_survey.specs.Shapes.{HasShape, IsEmptyRow, callers_width, raisers_width};

use code_forms::ModuleCode;
use mesa_base::{List, OutOfMemory};
use object_files::Image;
use place_walks::{Place, Table};
use std::alloc::Global;

type Row = Vec<List<Place>>;

/// The code of an instance, which is valid.
pub fn valid_code(image: &Image, instance: usize) -> &ModuleCode
    requires order { ImageInOrder image.now }
    requires there { instance < length image.now.instances }
    ensures is { code_of image.now instance ≡ Some result.now }
    ensures valid { Valid result.now }
{
    let module = image.instances.as_slice()[instance].module as usize;
    image.modules.as_slice()[module].code.code()
}

// A row of so many cells.
fn empty_row(alloc: Global, count: usize) -> Result<Row, OutOfMemory>
    ensures { IfOk result (λ row. IsEmptyRow count row.items) }
{
    let mut row = Vec::new(alloc);
    for cell in 0..count {
        row.push(List::new(alloc))?;
    }
    Ok(row)
}

/// A row of four cells, then for each instance one of as many cells as it has signals.
pub fn empty_raisers(alloc: Global, image: &Image) -> Result<Table<Place>, OutOfMemory>
    requires order { ImageInOrder image.now }
    ensures shape { IfOk result (HasShape (raisers_width image.now) (length image.now.instances + 1)) }
    ensures valid { OnOk result (AreValid image.now) }
{
    let mut table = Table::new(alloc);
    table.add_row(empty_row(alloc, 4)?)?;
    for instance in 0..image.instances.len() {
        let code = valid_code(image, instance);
        table.add_row(empty_row(alloc, code.signals.len())?)?;
    }
    Ok(table)
}

/// For each instance a row of as many cells as it has procedures.
pub fn empty_callers(alloc: Global, image: &Image) -> Result<Table<Place>, OutOfMemory>
    requires order { ImageInOrder image.now }
    ensures shape { IfOk result (HasShape (callers_width image.now) (length image.now.instances)) }
    ensures valid { OnOk result (AreValid image.now) }
{
    let mut table = Table::new(alloc);
    for instance in 0..image.instances.len() {
        let code = valid_code(image, instance);
        table.add_row(empty_row(alloc, code.procedures.len())?)?;
    }
    Ok(table)
}
