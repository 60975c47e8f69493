//! The procedures of a module by number, its body among them.
ghost use Rattle.std.specs.Prelude.{◌≡◌, suc, ◌≤◌, length, Some, slice_get};
ghost use Rattle.mesa_types.specs.Plain.{plain};
ghost use Rattle.code_rules.specs.Modules.{procedures_of};
ghost use Rattle.frame_code.specs.Heads.{procedure_in};

use mesa_base::Name;
use mesa_types::{FieldType, ItemKind, TypedBody, TypedModule};

/// A procedure, or the body of a module under the module's name.
#[derive(Clone, Copy)]
pub struct Placed<'a> {
    pub kind: ItemKind,
    pub name: &'a Name,
    pub takes: &'a [FieldType],
    pub gives: &'a [FieldType],
    pub body: &'a TypedBody,
}

/// Number 0 is the body; the others follow in order.
pub fn procedure_at<'a>(module: &'a TypedModule, number: usize) -> Placed<'a>
    requires { number ≤ length «module».now.procedures }
    ensures { slice_get (procedures_of (plain «module».now)) number ≡ Some (procedure_in result) }
{
    if number == 0 {
        return Placed {
            kind: ItemKind::Procedure,
            name: &module.name,
            takes: &[],
            gives: &[],
            body: &module.body,
        };
    }
    let procedure = &module.procedures.as_slice()[number - 1];
    Placed {
        kind: procedure.head.kind,
        name: &procedure.head.name,
        takes: procedure.head.takes.as_slice(),
        gives: procedure.head.gives.as_slice(),
        body: &procedure.body,
    }
}
