//! The innermost phrase at each instruction of a procedure.

ghost use Rattle.std.specs.Prelude.{◌≡◌, ◌<◌, List, IfOk};
ghost use Rattle.std.specs.List.{AllZip};
ghost use Rattle.code_forms.specs.declared.module_code.Phrase.{Phrase};
ghost use Rattle.signaller.specs.Index.{Indexes};
ghost use Rattle.machine_ready.specs.Openings.{IsInnermostAt};

use code_forms::CodeEntry;
use mesa_base::{List, OutOfMemory, Steps};
use signaller::{CatchIndex, innermost};
use std::alloc::Global;
use std::marker::Brand;
use std::sync::ledger::{Blank, Ledger};

// Counts comparisons apart.
fn found_counted<L: Ledger>(
    blank: Blank,
    alloc: Global,
    code: &[CodeEntry],
    index: &CatchIndex,
) -> Result<List<Option<u32>>, OutOfMemory>
    requires name { blank.name ≡ L.name }
    requires parts { blank.parts ≡ L.parts }
    requires some { 0 < blank.parts }
    ensures { (table : List Phrase) → Indexes table index.now → IfOk result (AllZip (IsInnermostAt table) code.now) }
{
    let mut comparisons = Steps::<L>::new(blank);
    let mut found = List::new(alloc);
    for entry in code {
        found.push(innermost(index, entry.at, &mut comparisons))?;
    }
    Ok(found)
}

/// Beside each instruction the innermost phrase there, found in the index of the phrases by halving.
pub fn innermost_of(
    alloc: Global,
    code: &[CodeEntry],
    index: &CatchIndex,
) -> Result<List<Option<u32>>, OutOfMemory>
    ensures { (table : List Phrase) → Indexes table index.now → IfOk result (AllZip (IsInnermostAt table) code.now) }
{
    found_counted::<Brand>(Blank::new(1), alloc, code, index)
}
