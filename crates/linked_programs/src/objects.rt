//! The objects of checked modules.

ghost use Rattle.std.specs.Prelude.{◌≡◌, [], ◌∷◌, ◌++◌, map, IfOk, OnOk};
ghost use Rattle.mesa_types.specs.Plain.{plain};
ghost use Rattle.linked_programs.specs.Modules.{AllCanBeLinked, CanBeLinked};
ghost use Rattle.linked_programs.specs.Objects.{AreObjectsOf, IsObjectOf};

use crate::shapes::shape_of;
use built_runs::TypedModules;
use code_forms::ValidCode;
use frame_code::translate;
use held_trees::LetGo;
use mesa_base::OutOfMemory;
use mesa_types::TypedModule;
use object_files::Object;
use std::alloc::{AllocFailed, Global};
use std::mem::drop;

fn let_code_go(code: ValidCode) {
    drop(code);
}

fn let_objects_go(objects: Vec<Object>) {
    drop(objects);
}

#[tactic(auto, using(crate::proofs::Building::object_is))]
fn object_of(alloc: Global, module: &TypedModule) -> Result<Object, OutOfMemory>
    requires { CanBeLinked (plain «module».now) }
    ensures { IfOk result (IsObjectOf (plain «module».now)) }
{
    let code = translate(alloc, module)?;
    match shape_of(alloc, module) {
        Ok(shape) => Ok(Object { shape, code }),
        Err(OutOfMemory) => {
            let_code_go(code);
            Err(OutOfMemory)
        }
    }
}

fn put_object(objects: &mut Vec<Object>, object: Object) -> Result<(), OutOfMemory>
    ensures { OnOk result (objects.new.items ≡ objects.old.items ++ object ∷ []) }
{
    match objects.push(object) {
        Ok(()) => Ok(()),
        Err(failed) => {
            let AllocFailed { value } = failed;
            let Object { shape, code } = value;
            shape.let_go();
            let_code_go(code);
            Err(OutOfMemory)
        }
    }
}

fn put_objects(
    alloc: Global,
    modules: &[TypedModule],
    objects: &mut Vec<Object>,
) -> Result<(), OutOfMemory>
    requires linkable { AllCanBeLinked (map plain modules.now) }
    requires empty { objects.old.items ≡ [] }
    ensures { OnOk result (AreObjectsOf (map plain modules.now) objects.new.items) }
{
    for typed in modules {
        let object = object_of(alloc, typed)?;
        put_object(objects, object)?;
    }
    Ok(())
}

/// The objects of modules, in their order: of each a copy of its shape, and the code that is chosen for it. Want of memory is the
/// one refusal.
#[tactic(auto, using(crate::proofs::Copying::whole_objects, crate::proofs::Copying::whole_can))]
pub fn objects_of(alloc: Global, modules: &TypedModules) -> Result<Vec<Object>, OutOfMemory>
    requires { AllCanBeLinked (map plain modules.now) }
    ensures { IfOk result (λ objects. AreObjectsOf (map plain modules.now) objects.items) }
{
    let mut objects = Vec::new(alloc);
    match put_objects(alloc, modules.as_slice(), &mut objects) {
        Ok(()) => Ok(objects),
        Err(OutOfMemory) => {
            let_objects_go(objects);
            Err(OutOfMemory)
        }
    }
}
