//! Objects, and what an image wants, while more is read.
ghost use Rattle.std.specs.Prelude.{◌≡◌, [], ◌∷◌, ◌++◌, IfOk};

use interface_records::{Wanted, Wanteds};
use mesa_base::OutOfMemory;
use object_files::{Object, Objects};
use std::mem::drop;

/// Lets go of objects.
pub fn let_objects_go(objects: Objects) {
    drop(objects);
}

/// The objects with one more. Where memory runs out all are let go.
pub fn with_object(mut objects: Objects, object: Object) -> Result<Objects, OutOfMemory>
    ensures { IfOk result (λ longer. longer ≡ objects ++ object ∷ []) }
{
    objects.push(object)?;
    Ok(objects)
}

/// Lets go of wanted items.
pub fn let_wanted_go(wanted: Wanteds) {
    drop(wanted);
}

/// The wanted items with one more. Where memory runs out all are let go.
pub fn with_wanted(mut wanted: Wanteds, one: Wanted) -> Result<Wanteds, OutOfMemory>
    ensures { IfOk result (λ longer. longer ≡ wanted ++ one ∷ []) }
{
    wanted.push(one)?;
    Ok(wanted)
}
