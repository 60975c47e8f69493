//! The types that an interface declares.
ghost use Rattle.std.specs.Prelude.{◌≡◌, ◌++◌, ◌∷◌, [], List as Values, ℕ, IfOk};
ghost use Rattle.face_rules.specs.FaceForms.{item_names};
ghost use Rattle.face_rules.specs.InterfaceForms as form;
ghost use Rattle.file_forms.specs.Forms.{several};
ghost use Rattle.file_forms.specs.Reads.{Reads, ReadsAs};
ghost use Rattle.file_forms.specs.Seen.{Shows};

use crate::trees::type_tree;
use face_rules::Sort;
use file_forms::{FileCursor, Seen, Stopped};
use held_trees::{LetGo, both};
use interface_records::{Interface, NamedType};
use mesa_base::OutOfMemory;
use mesa_base::limits::TYPE_DEPTH;
use std::alloc::{AllocFailed, Global};

#[tactic(auto, unfolding(face_rules::specs::InterfaceForms::named_type))]
fn named_type(
    alloc: Global,
    input: &mut FileCursor<'_>,
    version: u8,
    seen: &Seen,
) -> Result<NamedType, Stopped>
    ensures { (before : Values (Values ℕ)) → Shows seen.now before → Reads ((form.named_type version before).read input.old.rest.now) result input.new.rest.now }
{
    let name = input.fresh_name(alloc, seen)?;
    let kind = type_tree(alloc, input, version, TYPE_DEPTH, Sort::Any)?;
    Ok(NamedType { name, kind })
}

fn put_type(mut so_far: Interface, named: NamedType) -> Result<Interface, OutOfMemory>
    ensures { IfOk result (λ more. more ≡ record so_far { types = so_far.types ++ named ∷ [] }) }
{
    match so_far.types.push(named) {
        Ok(()) => Ok(so_far),
        Err(failed) => {
            let AllocFailed { value } = failed;
            let NamedType { name: _, kind } = value;
            kind.let_go();
            so_far.let_go();
            Err(OutOfMemory)
        }
    }
}

// The interface with one type more, whose name is added to the index of those before.
fn with_type(
    alloc: Global,
    so_far: Interface,
    seen: &mut Seen,
    named: NamedType,
) -> Result<Interface, OutOfMemory>
    requires { Shows seen.old (item_names so_far.face.items ++ form.constant_names so_far.constants ++ form.type_names so_far.types) }
    ensures { IfOk result (λ more. (more ≡ record so_far { types = so_far.types ++ named ∷ [] }) × Shows seen.new (item_names more.face.items ++ form.constant_names more.constants ++ form.type_names more.types)) }
{
    let NamedType { name, kind } = named;
    let added = seen.add(alloc, name.bytes());
    let ((so_far, kind), _) = both((so_far, kind), added)?;
    let more = put_type(so_far, NamedType { name, kind })?;
    Ok(more)
}

fn each_type(
    alloc: Global,
    input: &mut FileCursor<'_>,
    version: u8,
    seen: &mut Seen,
    count: u32,
    mut so_far: Interface,
) -> Result<Interface, Stopped>
    requires shown { Shows seen.old (item_names so_far.face.items ++ form.constant_names so_far.constants) }
    requires none { so_far.types ≡ [] }
    ensures read { ReadsAs (λ i. i.types) ((several count (λ before. form.named_type version (item_names so_far.face.items ++ form.constant_names so_far.constants ++ form.type_names before))).read input.old.rest.now) result input.new.rest.now }
    ensures kept { IfOk result (λ i. (i.face ≡ so_far.face) × (i.constants ≡ so_far.constants)) }
{
    'types: for _ in 0..count {
        let named = match named_type(alloc, input, version, seen) {
            Ok(named) => named,
            Err(why) => {
                so_far.let_go();
                return Err(why);
            }
        };
        so_far = with_type(alloc, so_far, seen, named)?;
    }
    Ok(so_far)
}

/// The interface with its types, whose names are none of those in the index, which are those of its items and constants.
#[tactic(auto, unfolding(face_rules::specs::InterfaceForms::named_types))]
pub fn named_types(
    alloc: Global,
    input: &mut FileCursor<'_>,
    version: u8,
    seen: &mut Seen,
    so_far: Interface,
) -> Result<Interface, Stopped>
    requires shown { Shows seen.old (item_names so_far.face.items ++ form.constant_names so_far.constants) }
    requires none { so_far.types ≡ [] }
    ensures read { ReadsAs (λ i. i.types) ((form.named_types version (item_names so_far.face.items ++ form.constant_names so_far.constants)).read input.old.rest.now) result input.new.rest.now }
    ensures kept { IfOk result (λ i. (i.face ≡ so_far.face) × (i.constants ≡ so_far.constants)) }
{
    match input.count_from(0) {
        Ok(count) => each_type(alloc, input, version, seen, count, so_far),
        Err(why) => {
            so_far.let_go();
            Err(why)
        }
    }
}
