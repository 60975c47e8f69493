//! Constants, named types and interfaces as bytes.
ghost use Rattle.std.specs.Prelude.{◌≡◌, [], ℕ, List, ◌++◌, OnOk};
ghost use Rattle.file_forms.specs.Forms.{FitEach, spell_each};
ghost use Rattle.file_forms.specs.Written.{appended};
ghost use Rattle.face_rules.specs.FaceForms.{item_names};
ghost use Rattle.face_rules.specs.InterfaceForms as form;
ghost use Rattle.interface_writers.specs.Elements.{each_constant, each_named_type};

use crate::faces::put_face;
use crate::types::put_type;
use face_rules::{Sort, has_long_values};
use file_forms::FileWriter;
use interface_records::{Constant, Constants, Interface, NamedType, NamedTypes};
use mesa_base::OutOfMemory;
use mesa_types::TypeTree;

// A value of the type: a number of four bytes where it is LONG, else a word.
fn put_value(out: &mut FileWriter, kind: &TypeTree, value: u32) -> Result<(), OutOfMemory>
    requires { (form.value_of kind.now).fits value }
    ensures { OnOk result (out.new ≡ appended out.old ((form.value_of kind.now).spell value)) }
{
    if has_long_values(kind) {
        out.u32(value)
    } else {
        out.u16(value as u16)
    }
}

#[tactic(auto, using(file_forms::proofs::WrittenLaws::appended_twice), unfolding(face_rules::specs::InterfaceForms::constant, file_forms::specs::Names::fresh_name))]
fn put_constant(out: &mut FileWriter, constant: &Constant) -> Result<(), OutOfMemory>
    requires { (seen : List (List ℕ)) × (form.constant 2 seen).fits constant.now }
    ensures { OnOk result (out.new ≡ appended out.old ((form.constant 2 []).spell constant.now)) }
{
    out.name(&constant.name)?;
    put_type(out, &constant.kind, Sort::OfConstant)?;
    put_value(out, &constant.kind, constant.value)
}

fn put_each_constant(out: &mut FileWriter, constants: &[Constant]) -> Result<(), OutOfMemory>
    requires { (seen : List (List ℕ)) × FitEach (each_constant seen) [] constants.now }
    ensures { OnOk result (out.new ≡ appended out.old (spell_each (each_constant []) [] constants.now)) }
{
    'constants: for constant in constants {
        if out.is_full() {
            return Ok(());
        }
        put_constant(out, constant)?;
    }
    Ok(())
}

// Constants, whose names are none of some others.
#[tactic(auto, using(file_forms::proofs::WrittenLaws::appended_twice), unfolding(face_rules::specs::InterfaceForms::constants))]
fn put_constants(out: &mut FileWriter, constants: &Constants) -> Result<(), OutOfMemory>
    requires { (seen : List (List ℕ)) × (form.constants 2 seen).fits constants.now }
    ensures { OnOk result (out.new ≡ appended out.old ((form.constants 2 []).spell constants.now)) }
{
    out.u32(constants.len() as u32)?;
    put_each_constant(out, constants.as_slice())
}

#[tactic(auto, using(file_forms::proofs::WrittenLaws::appended_twice), unfolding(face_rules::specs::InterfaceForms::named_type, file_forms::specs::Names::fresh_name))]
fn put_named_type(out: &mut FileWriter, named: &NamedType) -> Result<(), OutOfMemory>
    requires { (seen : List (List ℕ)) × (form.named_type 2 seen).fits named.now }
    ensures { OnOk result (out.new ≡ appended out.old ((form.named_type 2 []).spell named.now)) }
{
    out.name(&named.name)?;
    put_type(out, &named.kind, Sort::Any)
}

fn put_each_named_type(out: &mut FileWriter, types: &[NamedType]) -> Result<(), OutOfMemory>
    requires { (seen : List (List ℕ)) × FitEach (each_named_type seen) [] types.now }
    ensures { OnOk result (out.new ≡ appended out.old (spell_each (each_named_type []) [] types.now)) }
{
    'types: for named in types {
        if out.is_full() {
            return Ok(());
        }
        put_named_type(out, named)?;
    }
    Ok(())
}

// Named types, whose names are none of some others.
#[tactic(auto, using(file_forms::proofs::WrittenLaws::appended_twice), unfolding(face_rules::specs::InterfaceForms::named_types))]
fn put_named_types(out: &mut FileWriter, types: &NamedTypes) -> Result<(), OutOfMemory>
    requires { (seen : List (List ℕ)) × (form.named_types 2 seen).fits types.now }
    ensures { OnOk result (out.new ≡ appended out.old ((form.named_types 2 []).spell types.now)) }
{
    out.u32(types.len() as u32)?;
    put_each_named_type(out, types.as_slice())
}

#[tactic(auto, unfolding(face_rules::specs::InterfaceForms::interface))]
pub(crate) fn put_interface(out: &mut FileWriter, interface: &Interface) -> Result<(), OutOfMemory>
    requires { (form.interface 2).fits interface.now }
    ensures { OnOk result (out.new ≡ appended out.old ((form.interface 2).spell interface.now)) }
{
    put_face(out, &interface.face)?;
    put_constants(out, &interface.constants)?;
    put_named_types(out, &interface.types)
}
