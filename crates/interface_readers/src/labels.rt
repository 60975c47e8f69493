//! Origins, and the names of fields.
ghost use Rattle.std.specs.Prelude.{◌≡◌, ◌++◌, ◌∷◌, [], List, IfOk, OnOk};
ghost use Rattle.file_forms.specs.Reads.{Reads};
ghost use Rattle.file_forms.specs.Seen.{Shows};
ghost use Rattle.face_rules.specs.TypeForms as form;

use file_forms::{FileCursor, Seen, Stopped};
use held_trees::{both, pushed};
use mesa_base::{Field, Name, OutOfMemory};
use mesa_types::{FieldType, Fields, Origin};
use std::alloc::Global;

/// The module that declares a type, and which of its declarations it is.
#[tactic(auto, unfolding(face_rules::specs::TypeForms::origin))]
pub fn origin(alloc: Global, input: &mut FileCursor<'_>) -> Result<Origin, Stopped>
    ensures { Reads (form.origin.read input.old.rest.now) result input.new.rest.now }
{
    let module = input.name(alloc)?;
    let stamp = input.stamp()?;
    let number = input.u32()?;
    Ok(Origin {
        module,
        stamp: Some(stamp),
        number,
    })
}

// Whether a text is there exactly where the first field has a name.
fn is_alike(before: &[FieldType], text: &[u8]) -> bool
    ensures { result ≡ form.is_alike before.now text.now }
{
    match before {
        [] => true,
        [first, ..] => match first.name {
            Some(_) => !text.is_empty(),
            None => text.is_empty(),
        },
    }
}

/// The name of a field, if it has one. Length: it has one and the first has none, or the other way round; Name: its bytes
/// are none of a name; Twice: it was there.
#[tactic(auto, unfolding(face_rules::specs::TypeForms::label))]
pub fn label(
    alloc: Global,
    input: &mut FileCursor<'_>,
    before: &[FieldType],
    seen: &Seen,
) -> Result<Option<Name>, Stopped>
    requires { Shows seen.now (form.labels before.now) }
    ensures { Reads ((form.label before.now).read input.old.rest.now) result input.new.rest.now }
{
    let left = input.rest.len();
    let text = input.short_text()?;
    if !is_alike(before, text) {
        return Err(Stopped::Bad(Field::Length, left));
    }
    if text.is_empty() {
        return Ok(None);
    }
    match Name::new(alloc, text)? {
        Some(name) => {
            if seen.has(text) {
                return Err(Stopped::Bad(Field::Twice, left));
            }
            Ok(Some(name))
        }
        None => Err(Stopped::Bad(Field::Name, left)),
    }
}

#[tactic(auto, using(face_rules::proofs::TypeLaws::shows_named, face_rules::proofs::TypeLaws::shows_unnamed))]
fn add_label(alloc: Global, seen: &mut Seen, field: &FieldType) -> Result<(), OutOfMemory>
    ensures { OnOk result ((before : List FieldType) → Shows seen.old (form.labels before) → Shows seen.new (form.labels (before ++ field.now ∷ []))) }
{
    match &field.name {
        Some(name) => seen.add(alloc, name.bytes()),
        None => Ok(()),
    }
}

/// The fields with one more, whose name is added to the index of theirs.
pub fn with_field(
    alloc: Global,
    all: Fields,
    seen: &mut Seen,
    field: FieldType,
) -> Result<Fields, OutOfMemory>
    requires { Shows seen.old (form.labels all) }
    ensures { IfOk result (λ more. (more ≡ all ++ field ∷ []) × Shows seen.new (form.labels more)) }
{
    let added = add_label(alloc, seen, &field);
    let ((all, field), _) = both((all, field), added)?;
    pushed(all, field)
}
