//! The modules of an image: the objects of the components that have an instance, numbered anew.

ghost use Rattle.std.specs.Prelude.{◌≡◌, ◌<◌, ◌++◌, length, map, All, IfOk, OnOk, slice_index};
ghost use Rattle.link_tables.specs.Modules.{AreMarks, AreNumbers, numbered, kept_one, marked};

use config_rules::TreeInstance;
use held_trees::LetGo;
use mesa_base::{List, OutOfMemory, Path};
use object_files::code_forms::ValidCode;
use object_files::{Instance, Instances, Object, Objects};
use std::alloc::{AllocFailed, Global};
use std::mem::drop;

/// For each of so many components, by number, whether it has an instance.
pub fn marks_of(
    alloc: Global,
    instances: &[TreeInstance],
    many: usize,
) -> Result<Vec<bool>, OutOfMemory>
    ensures { IfOk result (λ marks. AreMarks instances.now 0 many marks.items) }
{
    let mut marks = vec![in alloc; false; many]?;
    for instance in instances {
        let component = instance.component as usize;
        if component < marks.len() {
            marks[component] = true;
        }
    }
    Ok(marks)
}

/// For each mark how many are set before it.
pub fn numbers_of(alloc: Global, marks: &[bool]) -> Result<Vec<usize>, OutOfMemory>
    ensures { IfOk result (λ numbers. AreNumbers marks.now numbers.items) }
{
    let mut numbers = Vec::new(alloc);
    let mut number = 0;
    for mark in marks {
        numbers.push(number)?;
        if *mark {
            number += 1;
        }
    }
    Ok(numbers)
}

fn copy_path(alloc: Global, path: &Path) -> Result<Path, OutOfMemory>
    ensures { IfOk result (λ copy. copy ≡ path.now) }
{
    let mut copy = List::new(alloc);
    for name in path.as_slice() {
        copy.push(name.copy(alloc)?)?;
    }
    Ok(copy)
}

// A module whose number has more than 32 bits counts as want of memory.
fn instance_of(
    alloc: Global,
    instance: &TreeInstance,
    numbers: &[usize],
) -> Result<Instance, OutOfMemory>
    requires { instance.now.component < length numbers.now }
    ensures { IfOk result (λ made. made ≡ numbered numbers.now instance.now) }
{
    let Ok(module) = u32::try_from(numbers[instance.component as usize]) else {
        return Err(OutOfMemory);
    };
    Ok(Instance {
        path: copy_path(alloc, &instance.path)?,
        module,
    })
}

/// The instances, each with its path and the number of its module.
pub fn instances_of(
    alloc: Global,
    instances: &[TreeInstance],
    numbers: &[usize],
) -> Result<Instances, OutOfMemory>
    requires { All (λ x. x.component < length numbers.now) instances.now }
    ensures { IfOk result (λ made. made ≡ map (numbered numbers.now) instances.now) }
{
    let mut made = List::new(alloc);
    for instance in instances {
        made.push(instance_of(alloc, instance, numbers)?)?;
    }
    Ok(made)
}

fn let_code_go(code: ValidCode) {
    drop(code);
}

fn let_object_go(object: Object) {
    let Object { shape, code } = object;
    shape.let_go();
    let_code_go(code);
}

pub fn let_objects_go(objects: Vec<Object>) {
    drop(objects);
}

// One that is not kept is let go.
fn put_kept(objects: &mut Objects, object: Object, is_kept: bool) -> Result<(), OutOfMemory>
    ensures { OnOk result (objects.new ≡ objects.old ++ kept_one object is_kept) }
{
    if !is_kept {
        let_object_go(object);
        return Ok(());
    }
    match objects.push(object) {
        Ok(()) => Ok(()),
        Err(failed) => {
            let AllocFailed { value } = failed;
            let_object_go(value);
            Err(OutOfMemory)
        }
    }
}

/// The objects that are marked, in their order; the others are let go.
pub fn kept_objects(
    alloc: Global,
    objects: Vec<Object>,
    marks: &[bool],
) -> Result<Objects, OutOfMemory>
    ensures { IfOk result (λ kept. kept ≡ marked objects.items marks.now) }
{
    let mut kept = List::new(alloc);
    for (object, mark) in objects.into_iter().zip(marks) {
        put_kept(&mut kept, object, *mark)?;
    }
    Ok(kept)
}
