//! What is read of an image where activations of it are shown.

ghost use Rattle.std.specs.Prelude.{◌≡◌, Some, IsSome, nat_lt};
ghost use Rattle.std.specs.List.{AllZip};
ghost use Rattle.code_forms.specs.declared.module_code.CodeProcedure.{CodeProcedure};
ghost use Rattle.code_forms.specs.Ranges.{InOrder};
ghost use Rattle.code_forms.specs.Routine.{Begins, IsStart, spots};
ghost use Rattle.machine_rules.specs.LookUps.{code_of, procedure_of};
ghost use Rattle.machine_ready.specs.Ready.{IsPlan, IsPlanned};

use code_forms::{CodeEntry, CodeProcedure, ModuleCode};
use machine_ready::{Plan, Plans};
use mesa_base::List;
use object_files::Image;

/// The number of the instruction that begins at the offset, where one does.
#[inline(always)]
pub(crate) fn entry_at(code: &[CodeEntry], offset: u32) -> usize
    requires { InOrder code.now }
    ensures { IsStart (spots code.now) offset → Begins (spots code.now) result offset }
{
    code.partition_point(
        |entry: &CodeEntry| -> bool
            ensures { result ≡ nat_lt entry.now.at offset }
        { entry.at < offset },
    )
}

/// The code of an instance.
#[inline(always)]
pub(crate) fn code_of(image: &Image, instance: u32) -> &ModuleCode
    requires { IsSome (code_of image.now instance) }
    ensures { code_of image.now instance ≡ Some result.now }
{
    let module = image.instances.as_slice()[instance as usize].module as usize;
    image.modules.as_slice()[module].code.code()
}

/// A procedure of an instance.
#[inline(always)]
pub(crate) fn procedure_at(image: &Image, instance: u32, number: u32) -> &CodeProcedure
    requires { IsSome (procedure_of image.now instance number) }
    ensures { procedure_of image.now instance number ≡ Some result.now }
{
    let code = code_of(image, instance);
    &code.procedures.as_slice()[number as usize]
}

/// The plan of a procedure of an instance.
#[inline(always)]
pub fn plan_of<'a>(image: &Image, plans: &'a List<Plans>, instance: u32, number: u32) -> &'a Plan
    requires planned { AllZip IsPlanned image.now.modules plans.now }
    requires there { IsSome (procedure_of image.now instance number) }
    ensures { (p : CodeProcedure) → procedure_of image.now instance number ≡ Some p → IsPlan p result.now }
{
    let module = image.instances.as_slice()[instance as usize].module as usize;
    &plans.as_slice()[module].as_slice()[number as usize]
}
