//! Types that hold types.
ghost use Rattle.std.specs.Prelude.{◌≡◌, IfOk};
ghost use Rattle.file_forms.specs.Reads.{Reads};
ghost use Rattle.file_forms.specs.Forms.{several};
ghost use Rattle.file_forms.specs.Seen.{Shows};
ghost use Rattle.face_rules.specs.Sorts.{takes};
ghost use Rattle.face_rules.specs.TypeForms as form;
ghost use Rattle.mesa_types.specs.declared.types.TypeTree.TheVariants as types;

use crate::labels::{label, origin, with_field};
use crate::ordinals::bounds;
use face_rules::Sort;
use file_forms::{FileCursor, Seen, Stopped};
use held_trees::{LetGo, both, pushed, shared};
use mesa_base::limits::{ENUMERATION_ELEMENTS, TYPE_WORDS};
use mesa_base::{Field, List, OutOfMemory, Shared};
use mesa_types::{FieldType, Fields, TypeTree};
use std::alloc::Global;
use typed_answers::size_words;

fn basic(tag: u8) -> TypeTree
    ensures { result ≡ form.basic tag }
{
    match tag {
        1 => TypeTree::Integer,
        2 => TypeTree::Cardinal,
        3 => TypeTree::Boolean,
        4 => TypeTree::Character,
        10 => TypeTree::LongInteger,
        11 => TypeTree::LongCardinal,
        _ => TypeTree::String,
    }
}

#[tactic(auto, unfolding(face_rules::specs::TypeForms::too_deep))]
fn too_deep(input: &mut FileCursor<'_>) -> Result<TypeTree, Stopped>
    ensures { Reads (form.too_deep.read input.old.rest.now) result input.new.rest.now }
{
    let left = input.rest.len();
    input.u8()?;
    Err(Stopped::Bad(Field::TypeTag, left))
}

/// The LONG types have tags in version 2 alone.
fn last_tag(version: u8) -> u8
    ensures { result ≡ form.last_tag version }
{
    if version == 1 { 9 } else { 11 }
}

#[tactic(auto, unfolding(face_rules::specs::TypeForms::tag))]
fn tag(input: &mut FileCursor<'_>, version: u8, sort: Sort) -> Result<u8, Stopped>
    ensures { Reads ((form.tag version (takes sort)).read input.old.rest.now) result input.new.rest.now }
{
    let left = input.rest.len();
    let tag = input.u8()?;
    if tag < 1 || tag > last_tag(version) || !sort.takes(tag) {
        return Err(Stopped::Bad(Field::TypeTag, left));
    }
    Ok(tag)
}

#[tactic(auto, unfolding(face_rules::specs::TypeForms::enumeration))]
fn enumeration(alloc: Global, input: &mut FileCursor<'_>) -> Result<TypeTree, Stopped>
    ensures { Reads (form.enumeration.read input.old.rest.now) result input.new.rest.now }
{
    let origin = origin(alloc, input)?;
    let count = input.count_between(1, ENUMERATION_ELEMENTS)?;
    let names = input.distinct_names(alloc, count)?;
    Ok(TypeTree::Enumeration(origin, Shared::new(alloc, names)?))
}

fn array_of(alloc: Global, index: TypeTree, element: TypeTree) -> Result<TypeTree, OutOfMemory>
    ensures { IfOk result (λ made. made ≡ types.Array index element) }
{
    let (element, index) = both(element, shared(alloc, index))?;
    let (index, element) = both(index, shared(alloc, element))?;
    Ok(TypeTree::Array(index, element))
}

/// A type of the sort, in which so many types may stand in one another.
#[cycle(types)]
#[tactic(auto, using(face_rules::proofs::TypeLaws::inside, face_rules::proofs::TypeLaws::outside))]
pub fn type_tree(
    alloc: Global,
    input: &mut FileCursor<'_>,
    version: u8,
    levels: u32,
    sort: Sort,
) -> Result<TypeTree, Stopped>
    ensures { Reads ((form.type_form version levels (takes sort)).read input.old.rest.now) result input.new.rest.now }
{
    if levels == 0 {
        return too_deep(input);
    }
    typed(alloc, input, version, levels - 1, sort)
}

// A type, inside which so many may stand in one another.
#[cycle(types)]
#[tactic(auto, unfolding(face_rules::specs::TypeForms::typed))]
fn typed(
    alloc: Global,
    input: &mut FileCursor<'_>,
    version: u8,
    levels: u32,
    sort: Sort,
) -> Result<TypeTree, Stopped>
    ensures { Reads ((form.typed version (form.type_form version levels) (takes sort)).read input.old.rest.now) result input.new.rest.now }
{
    let left = input.rest.len();
    let tag = tag(input, version, sort)?;
    let t = tagged(alloc, input, version, levels, tag)?;
    if size_words(&t) > TYPE_WORDS {
        t.let_go();
        return Err(Stopped::Bad(Field::TypeTag, left));
    }
    Ok(t)
}

#[cycle(types)]
#[tactic(auto, unfolding(face_rules::specs::TypeForms::tagged))]
fn tagged(
    alloc: Global,
    input: &mut FileCursor<'_>,
    version: u8,
    levels: u32,
    tag: u8,
) -> Result<TypeTree, Stopped>
    ensures { Reads ((form.tagged (form.type_form version levels) tag).read input.old.rest.now) result input.new.rest.now }
{
    match tag {
        6 => enumeration(alloc, input),
        7 => subrange(alloc, input, version, levels),
        8 => array(alloc, input, version, levels),
        9 => record(alloc, input, version, levels),
        _ => Ok(basic(tag)),
    }
}

#[cycle(types)]
#[tactic(auto, unfolding(face_rules::specs::TypeForms::subrange))]
fn subrange(
    alloc: Global,
    input: &mut FileCursor<'_>,
    version: u8,
    levels: u32,
) -> Result<TypeTree, Stopped>
    ensures { Reads ((form.subrange (form.type_form version levels)).read input.old.rest.now) result input.new.rest.now }
{
    let base = type_tree(alloc, input, version, levels, Sort::Base)?;
    let bounds = bounds(input, &base);
    let (base, (first, last)) = both(base, bounds)?;
    Ok(TypeTree::Subrange(shared(alloc, base)?, first, last))
}

#[cycle(types)]
#[tactic(auto, unfolding(face_rules::specs::TypeForms::array))]
fn array(
    alloc: Global,
    input: &mut FileCursor<'_>,
    version: u8,
    levels: u32,
) -> Result<TypeTree, Stopped>
    ensures { Reads ((form.array (form.type_form version levels)).read input.old.rest.now) result input.new.rest.now }
{
    let index = type_tree(alloc, input, version, levels, Sort::Index)?;
    let element = type_tree(alloc, input, version, levels, Sort::Any);
    let (index, element) = both(index, element)?;
    Ok(array_of(alloc, index, element)?)
}

#[cycle(types)]
#[tactic(auto, unfolding(face_rules::specs::TypeForms::record_of))]
fn record(
    alloc: Global,
    input: &mut FileCursor<'_>,
    version: u8,
    levels: u32,
) -> Result<TypeTree, Stopped>
    ensures { Reads ((form.record_of (form.type_form version levels)).read input.old.rest.now) result input.new.rest.now }
{
    let origin = origin(alloc, input)?;
    let fields = fields(alloc, input, version, levels, 1)?;
    Ok(TypeTree::Record(origin, shared(alloc, fields)?))
}

/// So many fields at least, inside whose types so many may stand in one another.
#[cycle(types)]
#[tactic(auto, unfolding(face_rules::specs::TypeForms::fields_form))]
pub fn fields(
    alloc: Global,
    input: &mut FileCursor<'_>,
    version: u8,
    levels: u32,
    least: u32,
) -> Result<Fields, Stopped>
    ensures { Reads ((form.fields_form (form.type_form version levels form.any) least).read input.old.rest.now) result input.new.rest.now }
{
    let count = input.count_from(least)?;
    each_field(alloc, input, version, levels, count)
}

#[cycle(types)]
fn each_field(
    alloc: Global,
    input: &mut FileCursor<'_>,
    version: u8,
    levels: u32,
    count: u32,
) -> Result<Fields, Stopped>
    ensures { Reads ((several count (form.field_form (form.type_form version levels form.any))).read input.old.rest.now) result input.new.rest.now }
{
    let mut all = List::new(alloc);
    let mut seen = Seen::new(alloc);
    'fields: for _ in 0..count {
        let field = match field(alloc, input, version, levels, &all, &seen) {
            Ok(field) => field,
            Err(why) => {
                all.let_go();
                return Err(why);
            }
        };
        all = with_field(alloc, all, &mut seen, field)?;
    }
    Ok(all)
}

#[cycle(types)]
#[tactic(auto, unfolding(face_rules::specs::TypeForms::field_form))]
fn field(
    alloc: Global,
    input: &mut FileCursor<'_>,
    version: u8,
    levels: u32,
    before: &Fields,
    seen: &Seen,
) -> Result<FieldType, Stopped>
    requires { Shows seen.now (form.labels before.now) }
    ensures { Reads ((form.field_form (form.type_form version levels form.any) before.now).read input.old.rest.now) result input.new.rest.now }
{
    let name = label(alloc, input, before.as_slice(), seen)?;
    let kind = type_tree(alloc, input, version, levels, Sort::Any)?;
    Ok(FieldType { name, kind })
}
