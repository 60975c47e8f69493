//! Types as bytes.
ghost use Rattle.std.specs.Prelude.{◌≡◌, ◌++◌, [], OnOk};
ghost use Rattle.mesa_base.specs.declared.limits.TheConstants.{ENUMERATION_ELEMENTS};
ghost use Rattle.file_forms.specs.Forms.{FitEach, spell_each, list, between};
ghost use Rattle.file_forms.specs.Names.{fresh_name};
ghost use Rattle.file_forms.specs.Written.{appended};
ghost use Rattle.face_rules.specs.Layers.{tag_of};
ghost use Rattle.face_rules.specs.Sorts.{takes};
ghost use Rattle.face_rules.specs.TypeForms as form;

use crate::names::{put_label, put_names, put_origin};
use face_rules::Sort;
use file_forms::FileWriter;
use mesa_base::OutOfMemory;
use mesa_base::limits::TYPE_DEPTH;
use mesa_types::{FieldType, Fields, Names, Origin, TypeTree};

#[tactic(auto, using(face_rules::proofs::WriteTags::tags), unfolding(face_rules::specs::Layers::tag_of))]
fn tag_of(t: &TypeTree) -> u8
    ensures { result ≡ tag_of t.now }
{
    match t {
        TypeTree::Integer => 1,
        TypeTree::Cardinal => 2,
        TypeTree::Boolean => 3,
        TypeTree::Character => 4,
        TypeTree::String => 5,
        TypeTree::Enumeration(_, _) => 6,
        TypeTree::Subrange(_, _, _) => 7,
        TypeTree::Array(_, _) => 8,
        TypeTree::Record(_, _) => 9,
        TypeTree::LongInteger => 10,
        TypeTree::LongCardinal => 11,
    }
}

#[tactic(auto, using(file_forms::proofs::WrittenLaws::appended_twice))]
fn put_enumeration(out: &mut FileWriter, origin: &Origin, names: &Names) -> Result<(), OutOfMemory>
    requires origin { form.origin.fits origin.now }
    requires names { (list (between 1 ENUMERATION_ELEMENTS) fresh_name).fits names.now }
    ensures { OnOk result (out.new ≡ appended out.old (form.origin.spell origin.now ++ (list (between 1 ENUMERATION_ELEMENTS) fresh_name).spell names.now)) }
{
    put_origin(out, origin)?;
    out.u32(names.len() as u32)?;
    put_names(out, names.as_slice())
}

#[tactic(auto, using(file_forms::proofs::WrittenLaws::appended_twice), unfolding(face_rules::specs::TypeForms::bounds))]
fn put_bounds(
    out: &mut FileWriter,
    base: &TypeTree,
    first: u16,
    last: u16,
) -> Result<(), OutOfMemory>
    ensures { OnOk result (out.new ≡ appended out.old ((form.bounds base.now).spell (first, last))) }
{
    out.u16(first)?;
    out.u16(last)
}

// A type of the sort, in which so many types may stand in one another. It is passed over at once where the file has too many
// bytes already: a type whose parts are shared takes little memory and may have a very long spelling.
#[cycle(writing)]
#[tactic(auto, using(face_rules::proofs::TypeLaws::inside, face_rules::proofs::WriteLaws::deep_fits, file_forms::proofs::WrittenLaws::appended_full))]
fn put_within(
    out: &mut FileWriter,
    t: &TypeTree,
    levels: u32,
    sort: Sort,
) -> Result<(), OutOfMemory>
    requires { (form.type_form 2 levels (takes sort)).fits t.now }
    ensures { OnOk result (out.new ≡ appended out.old ((form.type_form 2 levels (takes sort)).spell t.now)) }
{
    if levels == 0 || out.is_full() {
        return Ok(());
    }
    put_withind(out, t, levels - 1, sort)
}

#[cycle(writing)]
#[tactic(auto, using(file_forms::proofs::WrittenLaws::appended_twice), unfolding(face_rules::specs::TypeForms::typed, face_rules::specs::TypeForms::tag))]
fn put_withind(
    out: &mut FileWriter,
    t: &TypeTree,
    levels: u32,
    sort: Sort,
) -> Result<(), OutOfMemory>
    requires { (form.typed 2 (form.type_form 2 levels) (takes sort)).fits t.now }
    ensures { OnOk result (out.new ≡ appended out.old ((form.typed 2 (form.type_form 2 levels) (takes sort)).spell t.now)) }
{
    out.u8(tag_of(t))?;
    put_parts(out, t, levels)
}

#[cycle(writing)]
fn put_parts(out: &mut FileWriter, t: &TypeTree, levels: u32) -> Result<(), OutOfMemory>
    requires { (form.tagged (form.type_form 2 levels) (tag_of t.now)).fits t.now }
    ensures { OnOk result (out.new ≡ appended out.old ((form.tagged (form.type_form 2 levels) (tag_of t.now)).spell t.now)) }
{
    match t {
        TypeTree::Enumeration(origin, names) => put_enumeration(out, origin, names.get()),
        TypeTree::Subrange(base, first, last) => {
            put_subrange(out, base.get(), *first, *last, levels)
        }
        TypeTree::Array(index, element) => put_array(out, index.get(), element.get(), levels),
        TypeTree::Record(origin, fields) => put_record(out, origin, fields.get(), levels),
        TypeTree::Integer => Ok(()),
        TypeTree::Cardinal => Ok(()),
        TypeTree::LongInteger => Ok(()),
        TypeTree::LongCardinal => Ok(()),
        TypeTree::Boolean => Ok(()),
        TypeTree::Character => Ok(()),
        TypeTree::String => Ok(()),
    }
}

#[cycle(writing)]
#[tactic(auto, using(file_forms::proofs::WrittenLaws::appended_twice))]
fn put_subrange(
    out: &mut FileWriter,
    base: &TypeTree,
    first: u16,
    last: u16,
    levels: u32,
) -> Result<(), OutOfMemory>
    requires { (form.type_form 2 levels form.is_base).fits base.now }
    ensures { OnOk result (out.new ≡ appended out.old ((form.type_form 2 levels form.is_base).spell base.now ++ (form.bounds base.now).spell (first, last))) }
{
    put_within(out, base, levels, Sort::Base)?;
    put_bounds(out, base, first, last)
}

#[cycle(writing)]
#[tactic(auto, using(file_forms::proofs::WrittenLaws::appended_twice))]
fn put_array(
    out: &mut FileWriter,
    index: &TypeTree,
    element: &TypeTree,
    levels: u32,
) -> Result<(), OutOfMemory>
    requires index { (form.type_form 2 levels form.is_index).fits index.now }
    requires element { (form.type_form 2 levels form.any).fits element.now }
    ensures { OnOk result (out.new ≡ appended out.old ((form.type_form 2 levels form.is_index).spell index.now ++ (form.type_form 2 levels form.any).spell element.now)) }
{
    put_within(out, index, levels, Sort::Index)?;
    put_within(out, element, levels, Sort::Any)
}

#[cycle(writing)]
#[tactic(auto, using(file_forms::proofs::WrittenLaws::appended_twice), unfolding(face_rules::specs::TypeForms::fields_form))]
fn put_record(
    out: &mut FileWriter,
    origin: &Origin,
    fields: &Fields,
    levels: u32,
) -> Result<(), OutOfMemory>
    requires origin { form.origin.fits origin.now }
    requires fields { (form.fields_form (form.type_form 2 levels form.any) 1).fits fields.now }
    ensures { OnOk result (out.new ≡ appended out.old (form.origin.spell origin.now ++ (form.fields_form (form.type_form 2 levels form.any) 1).spell fields.now)) }
{
    put_origin(out, origin)?;
    out.u32(fields.len() as u32)?;
    put_each_field(out, fields.as_slice(), levels)
}

#[cycle(writing)]
fn put_each_field(
    out: &mut FileWriter,
    fields: &[FieldType],
    levels: u32,
) -> Result<(), OutOfMemory>
    requires { FitEach (form.field_form (form.type_form 2 levels form.any)) [] fields.now }
    ensures { OnOk result (out.new ≡ appended out.old (spell_each (form.field_form (form.type_form 2 levels form.any)) [] fields.now)) }
{
    'fields: for field in fields {
        if out.is_full() {
            return Ok(());
        }
        put_label(out, &field.name)?;
        put_within(out, &field.kind, levels, Sort::Any)?;
    }
    Ok(())
}

/// A type of the sort.
pub fn put_type(out: &mut FileWriter, t: &TypeTree, sort: Sort) -> Result<(), OutOfMemory>
    requires { (form.types 2 (takes sort)).fits t.now }
    ensures { OnOk result (out.new ≡ appended out.old ((form.types 2 (takes sort)).spell t.now)) }
{
    put_within(out, t, TYPE_DEPTH, sort)
}

/// Fields, as the parameters or results of an item.
#[tactic(auto, using(file_forms::proofs::WrittenLaws::appended_twice), unfolding(face_rules::specs::TypeForms::fields_form))]
pub fn put_fields(out: &mut FileWriter, fields: &Fields) -> Result<(), OutOfMemory>
    requires { (form.fields 2).fits fields.now }
    ensures { OnOk result (out.new ≡ appended out.old ((form.fields 2).spell fields.now)) }
{
    out.u32(fields.len() as u32)?;
    put_each_field(out, fields.as_slice(), TYPE_DEPTH)
}
