//! Where the topmost activation stands.

ghost use Rattle.std.specs.Prelude.{◌<◌, length, IsSome};
ghost use Rattle.machine_rules.specs.LookUps.{code_of};
ghost use Rattle.machine_activations.specs.Calling.{IsCodeOf};
ghost use Rattle.machine_activations.specs.Frames.{row_at};

use crate::look_ups::code_of;
use code_forms::ModuleCode;
use machine_activations::{Stack, row_of};
use machine_topmost::Registers;
use object_files::Image;

/// The code of the topmost activation's instance.
pub(crate) fn top_code<'a>(image: &'a Image, stack: &Stack, r: Registers) -> &'a ModuleCode
    requires there { r.top < length stack.now.rows.items }
    requires code { IsSome (code_of image.now (row_at stack.now.rows.items r.top).instance) }
    ensures { IsCodeOf image.now result.now stack.now.rows.items r }
{
    code_of(image, row_of(stack, r.top).instance)
}
