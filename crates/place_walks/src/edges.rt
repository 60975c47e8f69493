//! Which places follow.

ghost use Rattle.std.specs.Prelude.{OnOk};
ghost use Rattle.place_walks.specs.Edges.{IsEmpty, Holds, SameCells};

use crate::place::Place;
use crate::table::Table;
use mesa_base::OutOfMemory;

/// A place that follows from what a cell of a table stands for.
#[derive(Clone, Copy)]
pub struct Edge {
    pub row: usize,
    pub column: usize,
    pub to: Place,
}

/// Puts each place into its cell.
pub fn fill(table: &mut Table<Place>, edges: &[Edge]) -> Result<(), OutOfMemory>
    requires { IsEmpty table.old }
    ensures holds { OnOk result (Holds table.new edges.now) }
    ensures cells { OnOk result (SameCells table.old table.new) }
{
    for edge in edges {
        table.push(edge.row, edge.column, edge.to)?;
    }
    Ok(())
}
