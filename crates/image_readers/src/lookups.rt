//! The modules of instances.
ghost use Rattle.std.specs.Prelude.{◌≡◌, map, length, option_map, slice_get};
ghost use Rattle.std.specs.Option.{option_copied};
ghost use Rattle.object_readers.specs.Rows.{module_part};
ghost use Rattle.object_rules.specs.ImageForms as form;

use held_objects::{ManyRows, ModuleRows};
use object_files::Instances;

/// The module of the instance of this number, if there is one.
pub(crate) fn module_of<'a>(
    modules: &'a ManyRows,
    instances: &Instances,
    number: usize,
) -> Option<&'a ModuleRows>
    ensures { option_map module_part (option_copied result) ≡ form.module_at (map module_part modules.now) (slice_get instances.now number) }
{
    match instances.get(number) {
        Some(instance) => modules.get(instance.module as usize),
        None => None,
    }
}

/// How many exports the module of an instance has.
pub(crate) fn exports_of(modules: &ManyRows, instances: &Instances, number: usize) -> usize
    ensures { result ≡ length (form.exports_in (form.module_at (map module_part modules.now) (slice_get instances.now number))) }
{
    match module_of(modules, instances, number) {
        Some(rows) => rows.body.exports.len(),
        None => 0,
    }
}
