//! What the code reads of an image.

ghost use Rattle.std.specs.Prelude.{◌≡◌, IsSome, Some, slice_get};
ghost use Rattle.machine_rules.specs.LookUps.{code_of, module_number};

use code_forms::{CodeProcedure, ModuleCode};
use object_files::Image;

/// The number of an instance's module.
#[tactic(auto, unfolding(machine_rules::specs::LookUps::module_number))]
pub(crate) fn module_of(image: &Image, instance: u32) -> u32
    requires { IsSome (module_number image.now instance) }
    ensures { module_number image.now instance ≡ Some result }
{
    image.instances.as_slice()[instance as usize].module
}

/// The code of an instance.
pub(crate) fn code_of(image: &Image, instance: u32) -> &ModuleCode
    requires { IsSome (code_of image.now instance) }
    ensures { code_of image.now instance ≡ Some result.now }
{
    let module = image.instances.as_slice()[instance as usize].module as usize;
    image.modules.as_slice()[module].code.code()
}

/// A procedure of a module.
pub(crate) fn procedure_in(code: &ModuleCode, number: u32) -> &CodeProcedure
    requires { IsSome (slice_get code.now.procedures number) }
    ensures { slice_get code.now.procedures number ≡ Some result.now }
{
    &code.procedures.as_slice()[number as usize]
}
