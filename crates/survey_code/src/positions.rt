//! Which phrase is the innermost around each instruction.

ghost use Rattle.std.specs.Prelude.{◌≡◌, ℕ, ◌<◌, ◌≤◌, ◌^◌, length, nat_le, IfOk};
ghost use Rattle.std.specs.List.{AllWithin};
ghost use Rattle.std.specs.List.Sorted.{IsNonDecreasingBy};
ghost use Rattle.code_forms.specs.declared.module_code.Phrase.{Phrase as Ranged};
ghost use Rattle.code_forms.specs.Phrases.{PhrasesFill};
ghost use Rattle.code_forms.specs.Ranges.{InOrder};
ghost use Rattle.code_forms.specs.Rising.{RegionsRise};
ghost use Rattle.code_forms.specs.Routine.{spots};
ghost use Rattle.std.specs.Prelude.{List};
ghost use Rattle.survey_code.specs.Around.{AreBeyond, AreOver, AreParents, ArePositions};

use crate::around::{open_from, outward_of, phrase_before};
use code_forms::{CodeProcedure, Phrase};
use mesa_base::OutOfMemory;
use std::alloc::Global;

// How many phrases begin at the offset or before it.
fn begun_upto(table: &[Phrase], at: u32) -> usize
    requires { IsNonDecreasingBy (λ p. p.from) table.now }
    ensures bound { result ≤ length table.now }
    ensures begun { AllWithin (λ p. p.from ≤ at) table.now 0 result }
    ensures rest { AllWithin (λ p. at < p.from) table.now result (length table.now) }
{
    table.partition_point(
        |phrase: &Phrase| -> bool
            ensures { result ≡ nat_le phrase.now.from at }
        { phrase.from <= at },
    )
}

// Where a walk outward begins: at the last phrase, where more have begun, and else where the last walk ended.
fn start_of(innermost: Option<u32>, count: usize, begun: usize) -> Option<u32>
    requires { begun < 2 ^ 32 }
    ensures { (table : List Ranged) (at : ℕ) → AreOver table count at innermost → AreOver table begun at result }
{
    if begun == count {
        return innermost;
    }
    phrase_before(begun)
}

/// Of each instruction of a procedure, the innermost phrase around it, past the regions of arms too.
pub fn positions_of(
    alloc: Global,
    procedure: &CodeProcedure,
    parents: &[Option<u32>],
    beyonds: &[Option<u32>],
) -> Result<Vec<Option<u32>>, OutOfMemory>
    requires few { length procedure.now.phrases < 2 ^ 32 }
    requires order { InOrder procedure.now.code }
    requires fills { PhrasesFill (spots procedure.now.code) procedure.now.phrases }
    requires sorted { IsNonDecreasingBy (λ p. p.from) procedure.now.phrases }
    requires rise { RegionsRise procedure.now.phrases }
    requires many_parents { length parents.now ≡ length procedure.now.phrases }
    requires parents { AreParents procedure.now.phrases parents.now }
    requires many_beyonds { length beyonds.now ≡ length procedure.now.phrases }
    requires beyonds { AreBeyond procedure.now.phrases beyonds.now }
    ensures { IfOk result (λ positions. (length positions.items ≡ length procedure.now.code) × ArePositions procedure.now positions.items) }
{
    let table = procedure.phrases.as_slice();
    let mut positions = Vec::new(alloc);
    let mut count = 0;
    let mut innermost = None;
    for entry in procedure.code.as_slice() {
        let begun = begun_upto(table, entry.at);
        let start = start_of(innermost, count, begun);
        innermost = open_from(table, parents, begun, start, entry.at);
        count = begun;
        let position = outward_of(table, beyonds, table.len(), innermost, entry.at);
        positions.push(position)?;
    }
    Ok(positions)
}
