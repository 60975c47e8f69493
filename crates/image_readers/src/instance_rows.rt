//! The instances of an image.
ghost use Rattle.std.specs.Prelude.{◌≡◌, ◌++◌, ◌∷◌, [], List as Values, length, map, nat_le, not, IfOk};
ghost use Rattle.file_forms.specs.Forms.{list, ruled, several};
ghost use Rattle.file_forms.specs.Reads.{Reads};
ghost use Rattle.file_forms.specs.Seen.{Shows};
ghost use Rattle.image_readers.specs.Paths.{keys_of};
ghost use Rattle.mesa_base.specs.declared.file_fault.Field.TheVariants.{Twice};
ghost use Rattle.mesa_base.specs.declared.limits.TheConstants.{INSTANCES};
ghost use Rattle.object_files.specs.declared.image.Instance.{Instance as OneInstance};
ghost use Rattle.object_readers.specs.Rows.{module_part};
ghost use Rattle.object_rules.specs.ImageForms as form;
ghost use Rattle.object_rules.specs.Numbers.{number_where, is_below};

use crate::numbers::number_below;
use crate::paths::{key, path};
use file_forms::{FileCursor, Seen, Stopped};
use held_objects::ManyRows;
use mesa_base::limits::INSTANCES;
use mesa_base::{Field, List, OutOfMemory, Path};
use object_files::{Instance, Instances};
use object_readers::module_readers::count_up_to;
use std::alloc::Global;

// Whether an instance before has the path, by the index of their paths.
fn came_before(alloc: Global, seen: &Seen, path: &Path) -> Result<bool, OutOfMemory>
    ensures { IfOk result (λ there. (before : Values OneInstance) → Shows seen.now (keys_of before) → there ≡ form.has_path before path.now) }
{
    let key = key(alloc, path.as_slice())?;
    Ok(seen.has(key.as_slice()))
}

// Twice: an instance before has the path.
fn fresh_path(alloc: Global, input: &mut FileCursor<'_>, seen: &Seen) -> Result<Path, Stopped>
    ensures { (before : Values OneInstance) → Shows seen.now (keys_of before) → Reads ((ruled form.path (λ p. not (form.has_path before p)) Twice).read input.old.rest.now) result input.new.rest.now }
{
    let left = input.rest.len();
    let path = path(alloc, input)?;
    if came_before(alloc, seen, &path)? {
        return Err(Stopped::Bad(Field::Twice, left));
    }
    Ok(path)
}

// Number: the image has no such module.
fn module_number(input: &mut FileCursor<'_>, modules: &ManyRows) -> Result<u32, Stopped>
    ensures { Reads ((number_where 4 (is_below (length (map module_part modules.now)))).read input.old.rest.now) result input.new.rest.now }
{
    number_below(input, modules.len())
}

#[tactic(auto, unfolding(object_rules::specs::ImageForms::instance_form))]
fn instance(
    alloc: Global,
    input: &mut FileCursor<'_>,
    modules: &ManyRows,
    seen: &Seen,
) -> Result<Instance, Stopped>
    ensures { (before : Values OneInstance) → Shows seen.now (keys_of before) → Reads ((form.instance_form (map module_part modules.now) before).read input.old.rest.now) result input.new.rest.now }
{
    let path = fresh_path(alloc, input, seen)?;
    let module = module_number(input, modules)?;
    Ok(Instance { path, module })
}

// The instances with one more, whose path is added to the index of theirs.
fn with_instance(
    alloc: Global,
    mut all: Instances,
    seen: &mut Seen,
    instance: Instance,
) -> Result<Instances, OutOfMemory>
    requires { Shows seen.old (keys_of all) }
    ensures { IfOk result (λ more. (more ≡ all ++ instance ∷ []) × Shows seen.new (keys_of more)) }
{
    let key = key(alloc, instance.path.as_slice())?;
    seen.add(alloc, key.as_slice())?;
    all.push(instance)?;
    Ok(all)
}

fn each_instance(
    alloc: Global,
    input: &mut FileCursor<'_>,
    modules: &ManyRows,
    count: u32,
) -> Result<Instances, Stopped>
    ensures { Reads ((several count (form.instance_form (map module_part modules.now))).read input.old.rest.now) result input.new.rest.now }
{
    let mut all = List::new(alloc);
    let mut seen = Seen::new(alloc);
    'instances: for _ in 0..count {
        let instance = match instance(alloc, input, modules, &seen) {
            Ok(instance) => instance,
            Err(why) => return Err(why),
        };
        all = with_instance(alloc, all, &mut seen, instance)?;
    }
    Ok(all)
}

/// The instances of an image with these modules. Length: there are too many.
pub(crate) fn instances(
    alloc: Global,
    input: &mut FileCursor<'_>,
    modules: &ManyRows,
) -> Result<Instances, Stopped>
    ensures { Reads ((list (λ n. nat_le n INSTANCES) (form.instance_form (map module_part modules.now))).read input.old.rest.now) result input.new.rest.now }
{
    let count = count_up_to(input, INSTANCES as u32)?;
    each_instance(alloc, input, modules, count)
}
