//! Whether two faces are the same, and whether two items have one signature.

ghost use Rattle.std.specs.Prelude.{◌≡◌, ◌↔◌, IsTrue};
ghost use Rattle.interface_records.specs.Faces.{SameFace, SameSignature};

use typed_answers::mesa_types::{Face, Item};
use typed_answers::{same_fields, same_name, same_types};

fn same_item(a: &Item, b: &Item) -> bool
    ensures { IsTrue result ↔ (a.now ≡ b.now) }
{
    a.kind == b.kind
        && same_name(&a.name, &b.name)
        && same_fields(a.takes.as_slice(), b.takes.as_slice())
        && same_fields(a.gives.as_slice(), b.gives.as_slice())
}

fn same_items(a: &[Item], b: &[Item]) -> bool
    ensures { IsTrue result ↔ (a.now ≡ b.now) }
{
    if a.len() != b.len() {
        return false;
    }
    for i in 0..a.len() {
        if !same_item(&a[i], &b[i]) {
            return false;
        }
    }
    true
}

/// Whether two faces are the same: equal names, stamps and items, types by `same_type`. The names of parameters and
/// results count too.
pub fn same_face(a: &Face, b: &Face) -> bool
    ensures { IsTrue result ↔ SameFace a.now b.now }
{
    a.stamp.number() == b.stamp.number()
        && same_name(&a.name, &b.name)
        && same_items(a.items.as_slice(), b.items.as_slice())
}

/// Whether two items are of one kind, with the same types of parameters and of results, whatever the names.
pub fn same_signature(a: &Item, b: &Item) -> bool
    ensures { IsTrue result ↔ SameSignature a.now b.now }
{
    a.kind == b.kind
        && same_types(a.takes.as_slice(), b.takes.as_slice())
        && same_types(a.gives.as_slice(), b.gives.as_slice())
}
