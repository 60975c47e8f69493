//! Tables of lists.

ghost use Rattle.std.specs.Prelude.{◌≡◌, ◌<◌, [], ◌∷◌, ◌++◌, OnOk, length, slice_set};
ghost use Rattle.place_walks.specs.Table.{part, cell, with_cell};

use mesa_base::{List, OutOfMemory};
use std::alloc::Global;
use std::marker::Model;

/// Rows of cells, each of which is a list.
#[derive(Drop)]
pub struct Table<T> {
    rows: Vec<Vec<List<T>>>,
}

impl<T> Model for Table<T> {
    ghost use Rattle.std.specs.Prelude.{List as Items, map};
    ghost use Rattle.std.specs.Coded.{coded_list};
    ghost use Rattle.std.specs.declared.vec.Vec.{Vec};
    ghost use Rattle.std.specs.declared.alloc.Global.{Global};

    ghost Value = { Items (Items (Items T)) };

    ghost coded = { coded_list (coded_list (coded_list T.code)) };

    ghost view = { λ table. map (λ (row : Vec (Items T) Global). row.items) table.rows.items };
}

fn push_in<T: Drop>(row: &mut Vec<List<T>>, column: usize, item: T) -> Result<(), OutOfMemory>
    ensures { OnOk result (row.new.items ≡ slice_set row.old.items column (part row.old.items column ++ item ∷ [])) }
{
    if let Some(list) = row.get_mut(column) {
        list.push(item)?;
    }
    Ok(())
}

fn set_in<T: Drop>(row: &mut Vec<List<T>>, column: usize, at: usize, item: T)
    requires { at < length (part row.old.items column) }
    ensures { row.new.items ≡ slice_set row.old.items column (slice_set (part row.old.items column) at item) }
{
    if let Some(list) = row.get_mut(column) {
        list.set(at, item);
    }
}

impl<T: Drop> Table<T> {
    /// No rows. It takes no memory.
    pub fn new(alloc: Global) -> Table<T>
        ensures { result ≡ [] }
    {
        Table {
            rows: Vec::new(alloc),
        }
    }

    /// Puts a row behind.
    pub fn add_row(&mut self, row: Vec<List<T>>) -> Result<(), OutOfMemory>
        ensures { OnOk result (self.new ≡ self.old ++ row.items ∷ []) }
    {
        self.rows.push(row)?;
        Ok(())
    }

    /// Puts an item at the end of a cell; where there is no such cell nothing changes.
    pub fn push(&mut self, row: usize, column: usize, item: T) -> Result<(), OutOfMemory>
        ensures { OnOk result (self.new ≡ with_cell self.old row column (cell self.old row column ++ item ∷ [])) }
    {
        if let Some(cells) = self.rows.get_mut(row) {
            push_in(cells, column, item)?;
        }
        Ok(())
    }

    /// Puts another item at a place of a cell.
    pub fn set(&mut self, row: usize, column: usize, at: usize, item: T)
        requires { at < length (cell self.old row column) }
        ensures { self.new ≡ with_cell self.old row column (slice_set (cell self.old row column) at item) }
    {
        if let Some(cells) = self.rows.get_mut(row) {
            set_in(cells, column, at, item);
        }
    }

    /// What stands in a cell; nothing where there is no such cell.
    pub fn cell(&self, row: usize, column: usize) -> &[T]
        ensures { result.now ≡ cell self.now row column }
    {
        match self.rows.get(row) {
            Some(cells) => match cells.get(column) {
                Some(list) => list.as_slice(),
                None => &[],
            },
            None => &[],
        }
    }
}
