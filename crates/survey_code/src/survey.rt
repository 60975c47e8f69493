//! What a survey of escaping signals takes of a procedure.

ghost use Rattle.std.specs.Prelude.{◌≡◌, ◌<◌, ◌^◌, Contains, length, IfOk};
ghost use Rattle.std.specs.List.Sorted.{IsNonDecreasingBy};
ghost use Rattle.code_forms.specs.Phrases.{PhrasesFill};
ghost use Rattle.code_forms.specs.Ranges.{InOrder};
ghost use Rattle.code_forms.specs.Rising.{RegionsRise};
ghost use Rattle.code_forms.specs.Routine.{spots};
ghost use Rattle.code_forms.specs.Valid.{Valid};
ghost use Rattle.survey_code.specs.Around.{AreBeyond, ArePositions};
ghost use Rattle.survey_code.specs.Endings.{TellReached};
ghost use Rattle.survey_code.specs.Sites.{IsSurveyed};

use crate::around::{beyonds_of, parents_of};
use crate::graph::graph_of;
use crate::passing::passings_of;
use crate::positions::positions_of;
use crate::reaching::reach;
use crate::site::sites_of;
use crate::surveyed::Surveyed;
use code_forms::{CodeProcedure, ModuleCode};
use mesa_base::OutOfMemory;
use std::alloc::Global;

// Which instructions of the procedure are reached.
fn marks_of(
    alloc: Global,
    code: &ModuleCode,
    procedure: &CodeProcedure,
    positions: &[Option<u32>],
    beyonds: &[Option<u32>],
) -> Result<Vec<bool>, OutOfMemory>
    requires valid { Valid code.now }
    requires own { Contains code.now.procedures procedure.now }
    requires order { InOrder procedure.now.code }
    requires many_positions { length positions.now ≡ length procedure.now.code }
    requires positions { ArePositions procedure.now positions.now }
    requires many_beyonds { length beyonds.now ≡ length procedure.now.phrases }
    requires beyonds { AreBeyond procedure.now.phrases beyonds.now }
    ensures { IfOk result (λ marks. TellReached code.now procedure.now marks.items) }
{
    let graph = graph_of(alloc, code, procedure, positions, beyonds)?;
    let mut marks = reach(alloc, &graph)?;
    marks.truncate(procedure.code.len());
    Ok(marks)
}

fn survey_by(
    alloc: Global,
    code: &ModuleCode,
    procedure: &CodeProcedure,
    positions: &[Option<u32>],
    beyonds: &[Option<u32>],
) -> Result<Surveyed, OutOfMemory>
    requires valid { Valid code.now }
    requires own { Contains code.now.procedures procedure.now }
    requires order { InOrder procedure.now.code }
    requires many_positions { length positions.now ≡ length procedure.now.code }
    requires positions { ArePositions procedure.now positions.now }
    requires many_beyonds { length beyonds.now ≡ length procedure.now.phrases }
    requires beyonds { AreBeyond procedure.now.phrases beyonds.now }
    ensures { IfOk result (IsSurveyed code.now procedure.now) }
{
    let marked = marks_of(alloc, code, procedure, positions, beyonds)?;
    let marks = marked.as_slice();
    let sites = sites_of(alloc, procedure, marks, positions)?;
    let passings = passings_of(alloc, procedure, marks, beyonds)?;
    Ok(Surveyed { sites, passings })
}

fn survey_read(
    alloc: Global,
    code: &ModuleCode,
    procedure: &CodeProcedure,
) -> Result<Surveyed, OutOfMemory>
    requires valid { Valid code.now }
    requires own { Contains code.now.procedures procedure.now }
    requires order { InOrder procedure.now.code }
    requires fills { PhrasesFill (spots procedure.now.code) procedure.now.phrases }
    requires few { length procedure.now.phrases < 2 ^ 32 }
    requires sorted { IsNonDecreasingBy (λ p. p.from) procedure.now.phrases }
    requires rise { RegionsRise procedure.now.phrases }
    ensures { IfOk result (IsSurveyed code.now procedure.now) }
{
    let table = procedure.phrases.as_slice();
    let parents = parents_of(alloc, table)?;
    let beyonds = beyonds_of(alloc, table, parents.as_slice())?;
    let positions = positions_of(alloc, procedure, parents.as_slice(), beyonds.as_slice())?;
    survey_by(
        alloc,
        code,
        procedure,
        positions.as_slice(),
        beyonds.as_slice(),
    )
}

/// Surveys a procedure of a module whose code is valid: where signals may come in it, and what its phrases let past.
pub fn survey_procedure(
    alloc: Global,
    code: &ModuleCode,
    procedure: &CodeProcedure,
) -> Result<Surveyed, OutOfMemory>
    requires valid { Valid code.now }
    requires own { Contains code.now.procedures procedure.now }
    ensures { IfOk result (IsSurveyed code.now procedure.now) }
{
    survey_read(alloc, code, procedure)
}
