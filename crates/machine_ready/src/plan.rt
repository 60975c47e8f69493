//! What the run of a procedure needs beside its code.

ghost use Rattle.std.specs.Prelude.{IfOk, All};
ghost use Rattle.std.specs.List.{AllZip};
ghost use Rattle.code_forms.specs.Valid.{Valid};
ghost use Rattle.machine_ready.specs.Ready.{CanBePlanned, IsPlan, IsPlanned};

use crate::innermost::innermost_of;
use crate::openings::{Opening, openings_of};
use crate::targets::targets_of;
use code_forms::{CodeProcedure, ModuleCode};
use mesa_base::{List, Numbers, OutOfMemory};
use object_files::Object;
use signaller::index;
use std::alloc::Global;

/// What the run of a procedure needs beside its code: for each instruction the number of the one to which it jumps, and
/// the innermost phrase there; for each arm, as arms are numbered, how it is entered.
#[derive(Drop)]
pub struct Plan {
    pub targets: Numbers,
    pub innermost: List<Option<u32>>,
    pub openings: List<Opening>,
}

/// Those of the procedures of a module.
pub type Plans = List<Plan>;

fn plan_of(alloc: Global, procedure: &CodeProcedure) -> Result<Plan, OutOfMemory>
    requires { CanBePlanned procedure.now }
    ensures { IfOk result (IsPlan procedure.now) }
{
    let code = procedure.code.as_slice();
    let index = index(alloc, &procedure.phrases)?;
    Ok(Plan {
        targets: targets_of(alloc, code)?,
        innermost: innermost_of(alloc, code, &index)?,
        openings: openings_of(alloc, code, procedure.phrases.as_slice())?,
    })
}

fn plans_of(alloc: Global, procedures: &[CodeProcedure]) -> Result<Plans, OutOfMemory>
    requires { All CanBePlanned procedures.now }
    ensures { IfOk result (AllZip IsPlan procedures.now) }
{
    let mut plans = List::new(alloc);
    for procedure in procedures {
        plans.push(plan_of(alloc, procedure)?)?;
    }
    Ok(plans)
}

// A plan for each procedure of the module.
fn plans_of_module(alloc: Global, code: &ModuleCode) -> Result<Plans, OutOfMemory>
    requires { Valid code.now }
    ensures { IfOk result (AllZip IsPlan code.now.procedures) }
{
    plans_of(alloc, code.procedures.as_slice())
}

fn plans_of_object(alloc: Global, object: &Object) -> Result<Plans, OutOfMemory>
    ensures { IfOk result (IsPlanned object.now) }
{
    plans_of_module(alloc, object.code.code())
}

/// For each module the plans of its procedures.
pub fn all_plans(alloc: Global, modules: &[Object]) -> Result<List<Plans>, OutOfMemory>
    ensures { IfOk result (AllZip IsPlanned modules.now) }
{
    let mut plans = List::new(alloc);
    for object in modules {
        plans.push(plans_of_object(alloc, object)?)?;
    }
    Ok(plans)
}
