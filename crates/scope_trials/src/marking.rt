//! Rows of marks.

use check_scopes::Marks;
use mesa_base::OutOfMemory;
use std::alloc::Global;
use std::test::Fail;

/// Three rows, with marks in two of them; what lies outside is left alone.
fn marked(alloc: Global) -> Result<Marks, OutOfMemory> {
    let mut marks = Marks::new(alloc);
    marks.add_row(alloc, 3)?;
    marks.add_row(alloc, 0)?;
    marks.add_row(alloc, 2)?;
    marks.mark(0, 2);
    marks.mark(2, 0);
    marks.mark(2, 2);
    marks.mark(1, 0);
    marks.mark(3, 0);
    Ok(marks)
}

fn are_marked(alloc: Global) -> Result<bool, OutOfMemory> {
    let marks = marked(alloc)?;
    let are = marks.row(0) == [false, false, true].as_slice()
        && marks.row(2) == [true, false].as_slice();
    let are_empty = marks.row(1).is_empty() && marks.row(3).is_empty();
    Ok(
        are && are_empty
            && marks.is_marked(0, 2)
            && !marks.is_marked(0, 1)
            && !marks.is_marked(7, 7),
    )
}

fn copy_stays(alloc: Global) -> Result<bool, OutOfMemory> {
    let mut marks = marked(alloc)?;
    let copy = marks.copy(alloc)?;
    marks.mark(0, 0);
    Ok(marks.is_marked(0, 0) && !copy.is_marked(0, 0) && copy.is_marked(2, 0))
}

#[test]
fn marks(rt: HostRuntime) -> Result<(), Fail> {
    assert!(rt; are_marked(rt.alloc())?);
    assert!(rt; copy_stays(rt.alloc())?);
    Ok(())
}
