//! Whether the heads of signals and errors are alike.
ghost use Rattle.std.specs.Prelude.{◌≡◌, map};
ghost use Rattle.check_rules.specs.Around as spec;
ghost use Rattle.check_rules.specs.Parts as parts;
ghost use Rattle.interface_records.specs.PlainTypes.{plain_item};
ghost use Rattle.check_state.specs.Views as view;
ghost use Rattle.check_jumps.specs.Arms as label;

use check_state::ArmLabel;
use mesa_types::{FieldType, Item, ItemKind};

/// Whether the fields have the same types, in order.
pub fn same_types(a: &[FieldType], b: &[FieldType]) -> bool
    ensures { result ≡ parts.same_types (view.fields a.now) (view.fields b.now) }
{
    interface_records::typed_answers::same_types(a, b)
}

/// Whether the fields have the same names and types, in order.
pub fn same_fields(a: &[FieldType], b: &[FieldType]) -> bool
    ensures { result ≡ parts.same_fields (view.fields a.now) (view.fields b.now) }
{
    interface_records::typed_answers::same_fields(a, b)
}

fn is_signal(kind: ItemKind) -> bool
    ensures { result ≡ spec.is_signal kind }
{
    match kind {
        ItemKind::Signal => true,
        ItemKind::Procedure | ItemKind::Error => false,
    }
}

fn is_resumable(one: &ArmLabel) -> bool
    ensures { result ≡ label.is_resumable (view.arm_label one.now) }
{
    match one {
        ArmLabel::ForSignal(_, head) => is_signal(head.get().kind),
        ArmLabel::ForAny | ArmLabel::ForUnwind => false,
    }
}

/// Whether no label is an ERROR or ANY.
pub fn all_resumable(labels: &[ArmLabel]) -> bool
    ensures { result ≡ spec.all_resumable (map view.arm_label labels.now) }
{
    for one in labels {
        if !is_resumable(one) {
            return false;
        }
    }
    true
}

fn gives(fields: &[FieldType], one: &ArmLabel) -> bool
    ensures { result ≡ label.gives (view.fields fields.now) (view.arm_label one.now) }
{
    match one {
        ArmLabel::ForSignal(_, head) => same_types(head.get().gives.as_slice(), fields),
        ArmLabel::ForAny | ArmLabel::ForUnwind => false,
    }
}

/// Whether all labels give these types.
pub fn all_give(fields: &[FieldType], labels: &[ArmLabel]) -> bool
    ensures { result ≡ spec.all_give (view.fields fields.now) (map view.arm_label labels.now) }
{
    for one in labels {
        if !gives(fields, one) {
            return false;
        }
    }
    true
}

fn is_like(head: &Item, one: &ArmLabel) -> bool
    ensures { result ≡ label.is_like (plain_item head.now) (view.arm_label one.now) }
{
    match one {
        ArmLabel::ForSignal(_, other) => {
            let other = other.get();
            same_fields(other.takes.as_slice(), head.takes.as_slice())
                && same_fields(other.gives.as_slice(), head.gives.as_slice())
        }
        ArmLabel::ForAny | ArmLabel::ForUnwind => false,
    }
}

/// Whether all labels are of one type with this head, names included.
pub fn all_like(head: &Item, labels: &[ArmLabel]) -> bool
    ensures { result ≡ spec.all_like (plain_item head.now) (map view.arm_label labels.now) }
{
    for one in labels {
        if !is_like(head, one) {
            return false;
        }
    }
    true
}
