//! Marks of the items of imports, in a row for each import.
ghost use Rattle.std.specs.Prelude.{◌≡◌, [], true, OnOk, OnErr, IfOk, slice_set};
ghost use Rattle.check_scopes.specs.Marks as spec;

use mesa_base::OutOfMemory;
use std::alloc::Global;
use std::marker::Model;

/// Rows of marks, one for each import and in it one for each item of the interface. Setting or asking takes one step.
#[derive(Drop)]
pub struct Marks {
    rows: Vec<Vec<bool>>,
}

impl Model for Marks {
    ghost use Rattle.std.specs.Prelude.{List, Bool, map};
    ghost use Rattle.std.specs.declared.vec.Vec.{Vec};
    ghost use Rattle.std.specs.declared.alloc.Global.{Global};

    ghost Value = { List (List Bool) };

    ghost view = { λ marks. map (λ (row : Vec Bool Global). row.items) marks.rows.items };
}

fn set(row: &mut Vec<bool>, item: usize)
    ensures { row.new.items ≡ slice_set row.old.items item true }
{
    if let Some(mark) = row.get_mut(item) {
        *mark = true;
    }
}

impl Marks {
    /// No rows. It takes no memory.
    pub fn new(alloc: Global) -> Marks
        ensures { result ≡ [] }
    {
        Marks {
            rows: Vec::new(alloc),
        }
    }

    /// The same marks once more, in as many steps as there are items.
    pub fn copy(&self, alloc: Global) -> Result<Marks, OutOfMemory>
        ensures { IfOk result (λ copy. copy ≡ self.now) }
    {
        let mut rows = Vec::new(alloc);
        for row in self.rows.as_slice() {
            rows.push(Vec::from_slice(alloc, row.as_slice())?)?;
        }
        Ok(Marks { rows })
    }

    /// Puts a row of so many marks behind, none of them set. Where memory runs out the rows are as before.
    pub fn add_row(&mut self, alloc: Global, items: usize) -> Result<(), OutOfMemory>
        ensures ok { OnOk result (self.new ≡ spec.with_row items self.old) }
        ensures err { OnErr result (self.new ≡ self.old) }
    {
        let row = vec![in alloc; false; items]?;
        self.rows.push(row)?;
        Ok(())
    }

    /// Sets the mark of an item of an import; where there is no such item nothing changes.
    pub fn mark(&mut self, import: usize, item: usize)
        ensures { self.new ≡ spec.with_mark import item self.old }
    {
        if let Some(row) = self.rows.get_mut(import) {
            set(row, item);
        }
    }

    /// Whether the item of the import is marked; where there is no such item it is not.
    pub fn is_marked(&self, import: usize, item: usize) -> bool
        ensures { result ≡ spec.is_marked import item self.now }
    {
        self.row(import).get(item).copied().unwrap_or(false)
    }

    /// The marks of an import; none where there is no such import.
    pub fn row(&self, import: usize) -> &[bool]
        ensures { result.now ≡ spec.row import self.now }
    {
        match self.rows.get(import) {
            Some(row) => row.as_slice(),
            None => &[],
        }
    }
}
