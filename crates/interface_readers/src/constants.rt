//! The constants of an interface.
ghost use Rattle.std.specs.Prelude.{◌≡◌, ◌++◌, ◌∷◌, [], List as Values, ℕ, IfOk};
ghost use Rattle.face_rules.specs.FaceForms.{item_names};
ghost use Rattle.face_rules.specs.InterfaceForms as form;
ghost use Rattle.face_rules.specs.Layers.{value_bytes};
ghost use Rattle.file_forms.specs.Forms.{number, several};
ghost use Rattle.file_forms.specs.Reads.{Reads, ReadsAs};
ghost use Rattle.file_forms.specs.Seen.{Shows};

use crate::ordinals::holds;
use crate::trees::type_tree;
use face_rules::{Sort, has_long_values};
use file_forms::{FileCursor, Seen, Stopped};
use held_trees::{LetGo, both};
use interface_records::{Constant, Interface};
use mesa_base::limits::TYPE_DEPTH;
use mesa_base::{Field, OutOfMemory};
use mesa_types::TypeTree;
use std::alloc::{AllocFailed, Global};

/// A number of four bytes where the type is LONG, else a word.
fn number_of(input: &mut FileCursor<'_>, kind: &TypeTree) -> Result<u32, Stopped>
    ensures { Reads ((number (value_bytes kind.now)).read input.old.rest.now) result input.new.rest.now }
{
    if has_long_values(kind) {
        return input.u32();
    }
    match input.u16() {
        Ok(word) => Ok(word as u32),
        Err(why) => Err(why),
    }
}

fn value_of(input: &mut FileCursor<'_>, kind: &TypeTree) -> Result<u32, Stopped>
    ensures { Reads ((form.value_of kind.now).read input.old.rest.now) result input.new.rest.now }
{
    let left = input.rest.len();
    let value = number_of(input, kind)?;
    if !holds(kind, value) {
        return Err(Stopped::Bad(Field::Number, left));
    }
    Ok(value)
}

#[tactic(auto, unfolding(face_rules::specs::InterfaceForms::constant))]
fn constant(
    alloc: Global,
    input: &mut FileCursor<'_>,
    version: u8,
    seen: &Seen,
) -> Result<Constant, Stopped>
    ensures { (before : Values (Values ℕ)) → Shows seen.now before → Reads ((form.constant version before).read input.old.rest.now) result input.new.rest.now }
{
    let name = input.fresh_name(alloc, seen)?;
    let kind = type_tree(alloc, input, version, TYPE_DEPTH, Sort::OfConstant)?;
    let value = value_of(input, &kind);
    let (kind, value) = both(kind, value)?;
    Ok(Constant { name, kind, value })
}

fn put_constant(mut so_far: Interface, constant: Constant) -> Result<Interface, OutOfMemory>
    ensures { IfOk result (λ more. more ≡ record so_far { constants = so_far.constants ++ constant ∷ [] }) }
{
    match so_far.constants.push(constant) {
        Ok(()) => Ok(so_far),
        Err(failed) => {
            let AllocFailed { value } = failed;
            let Constant {
                name: _,
                kind,
                value: _,
            } = value;
            kind.let_go();
            so_far.let_go();
            Err(OutOfMemory)
        }
    }
}

// The interface with one constant more, whose name is added to the index of those before.
fn with_constant(
    alloc: Global,
    so_far: Interface,
    seen: &mut Seen,
    constant: Constant,
) -> Result<Interface, OutOfMemory>
    requires { Shows seen.old (item_names so_far.face.items ++ form.constant_names so_far.constants) }
    ensures { IfOk result (λ more. (more ≡ record so_far { constants = so_far.constants ++ constant ∷ [] }) × Shows seen.new (item_names more.face.items ++ form.constant_names more.constants)) }
{
    let Constant { name, kind, value } = constant;
    let added = seen.add(alloc, name.bytes());
    let ((so_far, kind), _) = both((so_far, kind), added)?;
    let more = put_constant(so_far, Constant { name, kind, value })?;
    Ok(more)
}

fn each_constant(
    alloc: Global,
    input: &mut FileCursor<'_>,
    version: u8,
    seen: &mut Seen,
    count: u32,
    mut so_far: Interface,
) -> Result<Interface, Stopped>
    requires shown { Shows seen.old (item_names so_far.face.items) }
    requires none { so_far.constants ≡ [] }
    ensures read { ReadsAs (λ i. i.constants) ((several count (λ before. form.constant version (item_names so_far.face.items ++ form.constant_names before))).read input.old.rest.now) result input.new.rest.now }
    ensures kept { IfOk result (λ i. (i.face ≡ so_far.face) × (i.types ≡ so_far.types) × Shows seen.new (item_names i.face.items ++ form.constant_names i.constants)) }
{
    'constants: for _ in 0..count {
        let constant = match constant(alloc, input, version, seen) {
            Ok(constant) => constant,
            Err(why) => {
                so_far.let_go();
                return Err(why);
            }
        };
        so_far = with_constant(alloc, so_far, seen, constant)?;
    }
    Ok(so_far)
}

/// The interface with its constants, whose names are added to the index of its items' names.
#[tactic(auto, unfolding(face_rules::specs::InterfaceForms::constants))]
pub fn constants(
    alloc: Global,
    input: &mut FileCursor<'_>,
    version: u8,
    seen: &mut Seen,
    so_far: Interface,
) -> Result<Interface, Stopped>
    requires shown { Shows seen.old (item_names so_far.face.items) }
    requires none { so_far.constants ≡ [] }
    ensures read { ReadsAs (λ i. i.constants) ((form.constants version (item_names so_far.face.items)).read input.old.rest.now) result input.new.rest.now }
    ensures kept { IfOk result (λ i. (i.face ≡ so_far.face) × (i.types ≡ so_far.types) × Shows seen.new (item_names i.face.items ++ form.constant_names i.constants)) }
{
    match input.count_from(0) {
        Ok(count) => each_constant(alloc, input, version, seen, count, so_far),
        Err(why) => {
            so_far.let_go();
            Err(why)
        }
    }
}
