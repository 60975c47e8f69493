//! Which types have values of four bytes.
ghost use Rattle.std.specs.Prelude.{◌≡◌, if◌then◌else◌};
ghost use Rattle.face_rules.specs.Layers.{value_bytes};

use mesa_types::TypeTree;

/// Whether a value of the type has four bytes, as that of a LONG type has; each other one is a word.
#[tactic(auto, using(crate::proofs::ValueBytes::widths))]
pub fn has_long_values(t: &TypeTree) -> bool
    ensures { value_bytes t.now ≡ (if result then 4 else 2) }
{
    match t {
        TypeTree::LongInteger => true,
        TypeTree::LongCardinal => true,
        TypeTree::Integer => false,
        TypeTree::Cardinal => false,
        TypeTree::Boolean => false,
        TypeTree::Character => false,
        TypeTree::String => false,
        TypeTree::Enumeration(_, _) => false,
        TypeTree::Subrange(_, _, _) => false,
        TypeTree::Array(_, _) => false,
        TypeTree::Record(_, _) => false,
    }
}
