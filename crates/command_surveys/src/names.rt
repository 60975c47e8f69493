//! What an image calls a signal of an instance: the path of the instance, and the signal's own name.

ghost use Rattle.std.specs.Prelude.{◌≡◌, option_map, slice_get};
ghost use Rattle.std.specs.Option.{option_copied};
ghost use Rattle.object_files.specs.declared.object.Object.{Object as ModuleObject};
ghost use Rattle.machine_rules.specs.LookUps as look;
ghost use Rattle.command_passes.specs.command_rules.specs.Shown as shown;

use code_forms::ModuleCode;
use mesa_base::Name;
use object_files::{Image, Object};

/// The path of an instance.
pub(crate) fn path_of(image: &Image, instance: u32) -> &[Name]
    ensures { result.now ≡ shown.path_of (slice_get image.now.instances instance) }
{
    match image.instances.get(instance as usize) {
        Some(instance) => instance.path.as_slice(),
        None => &[],
    }
}

/// The module of an instance.
fn module_of(image: &Image, instance: u32) -> Option<&Object>
    ensures { option_map (λ (o : ModuleObject). o.code) (option_copied result) ≡ look.code_of image.now instance }
{
    match image.instances.get(instance as usize) {
        Some(instance) => image.modules.get(instance.module as usize),
        None => None,
    }
}

/// The name of a signal of a module.
fn name_in(code: &ModuleCode, number: u32) -> &[u8]
    ensures { result.now ≡ shown.signal_name (slice_get code.now.signals number) }
{
    match code.signals.get(number as usize) {
        Some(signal) => signal.name.bytes(),
        None => &[],
    }
}

/// The name of a signal of an instance.
pub(crate) fn name_of(image: &Image, instance: u32, number: u32) -> &[u8]
    ensures { result.now ≡ shown.signal_name (look.signal_of image.now instance number) }
{
    match module_of(image, instance) {
        Some(object) => name_in(object.code.code(), number),
        None => &[],
    }
}
