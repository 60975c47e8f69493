//! The segments of a procedure's code, each with its innermost phrase, and the look-up at an offset.
ghost use Rattle.std.specs.Prelude.{◌≡◌, ℕ, ◌+◌, ◌^◌, ◌*◌, ◌<◌, ◌≤◌, length, List, IfOk};
ghost use Rattle.code_forms.specs.declared.module_code.Phrase.{Phrase};
ghost use Rattle.signaller.specs.Index.{Indexes};
ghost use Rattle.signaller.specs.Search.{innermost_of};
ghost use Rattle.signaller.specs.Tables.{IsCatchTable};

use crate::sweep::segments_of;
use code_forms::CatchTable;
use code_forms::mesa_base::{OutOfMemory, Steps};
use std::alloc::Global;
use std::marker::Model;
use std::sync::ledger::Ledger;

/// From its start to that of the next segment the innermost phrase is this one.
#[derive(Clone, Copy)]
pub struct Segment {
    pub start: u32,
    pub phrase: Option<u32>,
}

/// The segments of the code of a procedure, in order.
#[derive(Drop)]
pub struct CatchIndex {
    segments: Vec<Segment>,
}

impl Model for CatchIndex {
    ghost use Rattle.std.specs.Prelude.{List};
    ghost use Rattle.signaller.specs.declared.catch_index.Segment.{Segment};

    ghost Value = { List Segment };

    ghost view = { λ index. index.segments.items };
}

/// The segments of the code of a procedure, each with its innermost phrase: the first begins at 0, and there are twice
/// the number of phrases and one at most. It sorts where ranges begin and end, and then opens and closes each phrase once
/// at most. It takes memory, and refuses for want of it alone. The phrases of a procedure of valid code are as it asks.
pub fn index(alloc: Global, table: &CatchTable) -> Result<CatchIndex, OutOfMemory>
    requires table { IsCatchTable table.now }
    ensures { IfOk result (Indexes table.now) }
{
    let segments = segments_of(alloc, table.as_slice())?;
    Ok(CatchIndex { segments })
}

// The same over the segments.
#[inline(always)]
fn innermost_in<L: Ledger>(segments: &[Segment], at: u32, steps: &mut Steps<L>) -> Option<u32>
    ensures phrase { (table : List Phrase) → Indexes table segments.now → result ≡ innermost_of table at }
    ensures counted { (digits : ℕ) → length segments.now < 2 ^ digits → steps.new ≤ steps.old + digits }
    ensures rises { steps.old ≤ steps.new }
{
    let mut low: usize = 0;
    let mut high = segments.len();
    'halving: while low < high {
        let middle = low + (high - low) / 2;
        steps.tick();
        if segments[middle].start <= at {
            low = middle + 1;
        } else {
            high = middle;
        }
    }
    if low == 0 {
        return None;
    }
    segments[low - 1].phrase
}

/// The innermost phrase at an offset, None exactly where none covers it. One step is counted for each start of a
/// segment that is compared, as many as the number of segments has binary digits at most.
#[inline(always)]
pub fn innermost<L: Ledger>(index: &CatchIndex, at: u32, steps: &mut Steps<L>) -> Option<u32>
    ensures phrase { (table : List Phrase) → Indexes table index.now → result ≡ innermost_of table at }
    ensures counted { (digits : ℕ) → length index.now < 2 ^ digits → steps.new ≤ steps.old + digits }
    ensures rises { steps.old ≤ steps.new }
{
    innermost_in(index.segments.as_slice(), at, steps)
}
