//! What a configuration needs to know of checked modules.

ghost use Rattle.std.specs.Prelude.{◌≡◌, [], ◌∷◌, ◌++◌, map, IfOk, OnOk};
ghost use Rattle.mesa_types.specs.Plain.{plain};
ghost use Rattle.built_runs.specs.bound_images.specs.Programs.{shape_of};
ghost use Rattle.linked_programs.specs.Modules.{shape_in, shapes_of};

use built_runs::TypedModules;
use config_rules::Shapes;
use held_trees::LetGo;
use mesa_base::{List, OutOfMemory};
use mesa_types::{Shape, TypedModule};
use std::alloc::{AllocFailed, Global};
use std::mem::drop;

/// The shape of a module, a copy.
pub fn shape_of(alloc: Global, module: &TypedModule) -> Result<Shape, OutOfMemory>
    ensures { IfOk result (λ shape. shape ≡ shape_of (plain «module».now)) }
{
    let TypedModule {
        name,
        imports,
        exports,
        globals,
        signals,
        strings: _,
        procedures,
        body,
    } = module.copy(alloc)?;
    globals.let_go();
    signals.let_go();
    procedures.let_go();
    body.let_go();
    Ok(Shape {
        name,
        imports,
        exports,
    })
}

/// Lets shapes go.
pub fn let_shapes_go(shapes: Shapes) {
    drop(shapes);
}

/// Puts a shape behind others. Where memory runs out it is let go.
pub fn put_shape(shapes: &mut Shapes, shape: Shape) -> Result<(), OutOfMemory>
    ensures { OnOk result (shapes.new ≡ shapes.old ++ shape ∷ []) }
{
    match shapes.push(shape) {
        Ok(()) => Ok(()),
        Err(failed) => {
            let AllocFailed { value } = failed;
            value.let_go();
            Err(OutOfMemory)
        }
    }
}

fn put_shapes(
    alloc: Global,
    modules: &[TypedModule],
    shapes: &mut Shapes,
) -> Result<(), OutOfMemory>
    requires { shapes.old ≡ [] }
    ensures { OnOk result (shapes.new ≡ map shape_in modules.now) }
{
    for typed in modules {
        let shape = shape_of(alloc, typed)?;
        put_shape(shapes, shape)?;
    }
    Ok(())
}

/// The shapes of modules, in their order.
#[tactic(auto, using(crate::proofs::Copying::whole_shapes))]
pub fn shapes_of(alloc: Global, modules: &TypedModules) -> Result<Shapes, OutOfMemory>
    ensures { IfOk result (λ shapes. shapes ≡ shapes_of (map plain modules.now)) }
{
    let mut shapes = List::new(alloc);
    match put_shapes(alloc, modules.as_slice(), &mut shapes) {
        Ok(()) => Ok(shapes),
        Err(OutOfMemory) => {
            let_shapes_go(shapes);
            Err(OutOfMemory)
        }
    }
}
