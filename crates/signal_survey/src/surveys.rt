//! What is taken of the procedures of an image's modules.

ghost use Rattle.std.specs.Prelude.{◌≡◌, IfOk, OnOk};
ghost use Rattle.std.specs.List.{AllZip};
ghost use Rattle.code_forms.specs.Valid.{Valid};
ghost use Rattle.machine_rules.specs.Laws.{HasValidCode};
ghost use Rattle.survey_code.specs.Sites.{IsSurveyed};
ghost use Rattle.signal_survey.specs.Graph.{AreSurveyed};
ghost use Rattle.signal_survey.specs.Modules.{IsModuleSurveyed};

use crate::graph::Surveys;
use code_forms::{CodeProcedure, ModuleCode};
use mesa_base::{List, OutOfMemory};
use object_files::{Image, Object};
use std::alloc::Global;
use survey_code::{Surveyed, survey_procedure};

fn surveys_of_procedures(
    alloc: Global,
    code: &ModuleCode,
    procedures: &[CodeProcedure],
) -> Result<List<Surveyed>, OutOfMemory>
    requires valid { Valid code.now }
    requires own { procedures.now ≡ code.now.procedures }
    ensures { IfOk result (AllZip (IsSurveyed code.now) procedures.now) }
{
    let mut surveys = List::new(alloc);
    for procedure in procedures {
        surveys.push(survey_procedure(alloc, code, procedure)?)?;
    }
    Ok(surveys)
}

fn surveys_of_module(alloc: Global, object: &Object) -> Result<List<Surveyed>, OutOfMemory>
    ensures { IfOk result (IsModuleSurveyed object.now) }
{
    let code = object.code.code();
    surveys_of_procedures(alloc, code, code.procedures.as_slice())
}

fn surveys_of_modules(alloc: Global, modules: &[Object]) -> Result<Surveys, OutOfMemory>
    ensures { IfOk result (AllZip IsModuleSurveyed modules.now) }
{
    let mut surveys = List::new(alloc);
    for object in modules {
        surveys.push(surveys_of_module(alloc, object)?)?;
    }
    Ok(surveys)
}

/// What is taken of each procedure of each module. The code of each module is valid.
pub fn surveys_of(alloc: Global, image: &Image) -> Result<Surveys, OutOfMemory>
    ensures surveyed { IfOk result (AreSurveyed image.now) }
    ensures valid { OnOk result (HasValidCode image.now) }
{
    surveys_of_modules(alloc, image.modules.as_slice())
}
