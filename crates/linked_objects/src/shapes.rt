//! What a configuration needs to know of objects.
ghost use Rattle.std.specs.Prelude.{◌≡◌, [], IfOk, OnOk};
ghost use Rattle.link_tables.specs.Parts.{shapes_of};

use config_rules::Shapes;
use linked_programs::{let_shapes_go, put_shape};
use mesa_base::{List, OutOfMemory};
use object_files::Object;
use std::alloc::Global;

fn put_shapes(alloc: Global, objects: &[Object], shapes: &mut Shapes) -> Result<(), OutOfMemory>
    requires { shapes.old ≡ [] }
    ensures { OnOk result (shapes.new ≡ shapes_of objects.now) }
{
    for object in objects {
        let shape = object.shape.copy(alloc)?;
        put_shape(shapes, shape)?;
    }
    Ok(())
}

/// The shapes of objects, copies, in their order.
pub fn shapes_of(alloc: Global, objects: &[Object]) -> Result<Shapes, OutOfMemory>
    ensures { IfOk result (λ shapes. shapes ≡ shapes_of objects.now) }
{
    let mut shapes = List::new(alloc);
    match put_shapes(alloc, objects, &mut shapes) {
        Ok(()) => Ok(shapes),
        Err(OutOfMemory) => {
            let_shapes_go(shapes);
            Err(OutOfMemory)
        }
    }
}
