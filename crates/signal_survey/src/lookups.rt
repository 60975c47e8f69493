//! What an image has.

ghost use Rattle.std.specs.Prelude.{◌≡◌, unwrap_or, slice_get, []};
ghost use Rattle.std.specs.Option.{option_copied};
ghost use Rattle.machine_rules.specs.LookUps.{code_of};

use code_forms::ModuleCode;
use object_files::{Image, Link};

/// The code of an instance.
#[tactic(auto, unfolding(machine_rules::specs::LookUps::code_of, machine_rules::specs::LookUps::code_in, machine_rules::specs::LookUps::module_number))]
pub fn code_of(image: &Image, instance: usize) -> Option<&ModuleCode>
    ensures { option_copied result ≡ code_of image.now instance }
{
    match image.instances.get(instance) {
        Some(it) => match image.modules.get(it.module as usize) {
            Some(object) => Some(object.code.code()),
            None => None,
        },
        None => None,
    }
}

/// To what an instance's links are bound.
pub fn table_of(image: &Image, instance: usize) -> &[Link]
    ensures { result.now ≡ unwrap_or (slice_get image.now.links instance) [] }
{
    match image.links.get(instance) {
        Some(table) => table.as_slice(),
        None => &[],
    }
}
