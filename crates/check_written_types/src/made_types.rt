//! Types that are made of their parts.
ghost use Rattle.std.specs.Prelude.{◌≡◌, IfOk};
ghost use Rattle.check_rules.specs.Parts.{names_of};
ghost use Rattle.interface_records.specs.PlainTypes as types;
ghost use Rattle.interface_records.specs.PlainTypes.{plain};
ghost use Rattle.check_rules.specs.TypeRules as spec;
ghost use Rattle.check_state.specs.Gives.{Gives};
ghost use Rattle.check_state.specs.Views as words;
ghost use Rattle.check_written_types.specs.Forms as form;

use check_rules::CheckFault;
use check_state::{Around, Known, State, narrow};
use check_types::declare_elements;
use held_trees::{both, put, shared};
use mesa_base::{Identifier, List, OutOfMemory, Place};
use mesa_types::{Fields, Names, Origin, TypeTree};
use std::alloc::Global;

/// The declaration of the record or enumeration that stands at this place.
#[tactic(auto, unfolding(check_state::specs::Views::known))]
pub fn origin(place: Place, alloc: Global, known: &Known) -> Result<Origin, OutOfMemory>
    ensures { IfOk result (λ made. made ≡ spec.origin (words.known known.now) place) }
{
    let number = narrow(known.origins.before(place.token))?;
    let module = known.name.copy(alloc)?;
    Ok(Origin {
        module,
        stamp: known.stamp,
        number,
    })
}

fn names_of_elements(elements: &[Identifier], alloc: Global) -> Result<Names, OutOfMemory>
    ensures { IfOk result (λ names. names ≡ names_of elements.now) }
{
    let mut names = List::new(alloc);
    for one in elements {
        put(&mut names, one.name.copy(alloc)?)?;
    }
    Ok(names)
}

#[tactic(auto, using(check_state::proofs::TypeForms::type_forms), unfolding(check_state::specs::Views::around))]
fn enumeration_of(
    elements: &[Identifier],
    place: Place,
    alloc: Global,
    around: &Around<'_>,
) -> Result<TypeTree, OutOfMemory>
    ensures { IfOk result (λ made. plain made ≡ form.enumeration_type (words.around around.now) place elements.now) }
{
    let origin = origin(place, alloc, around.known)?;
    let names = names_of_elements(elements, alloc)?;
    Ok(TypeTree::Enumeration(origin, shared(alloc, names)?))
}

/// The type of an enumeration that stands at this place, whose elements are declared.
#[tactic(auto, unfolding(crate::specs::Forms::enumeration))]
pub(crate) fn enumeration(
    elements: &[Identifier],
    place: Place,
    alloc: Global,
    around: &Around<'_>,
    state: &mut State,
) -> Result<TypeTree, CheckFault>
    ensures { Gives plain (form.enumeration (words.around around.now) place elements.now (words.state state.old)) result (words.state state.new) }
{
    let kind = enumeration_of(elements, place, alloc, around)?;
    let declared = declare_elements(elements, place, alloc, around, state, &kind);
    let (kind, _) = both(kind, declared)?;
    Ok(kind)
}

#[tactic(auto, using(check_state::proofs::TypeForms::type_forms))]
pub(crate) fn array_of(
    alloc: Global,
    index: TypeTree,
    element: TypeTree,
) -> Result<TypeTree, OutOfMemory>
    ensures { IfOk result (λ made. plain made ≡ types.Array (plain index) (plain element)) }
{
    let (element, index) = both(element, shared(alloc, index))?;
    let (index, element) = both(index, shared(alloc, element))?;
    Ok(TypeTree::Array(index, element))
}

#[tactic(auto, using(check_state::proofs::TypeForms::type_forms), unfolding(check_state::specs::Views::around))]
pub(crate) fn record_of(
    place: Place,
    alloc: Global,
    around: &Around<'_>,
    fields: Fields,
) -> Result<TypeTree, OutOfMemory>
    ensures { IfOk result (λ made. plain made ≡ form.record_type (words.around around.now) place (words.fields fields)) }
{
    let (fields, origin) = both(fields, origin(place, alloc, around.known))?;
    Ok(TypeTree::Record(origin, shared(alloc, fields)?))
}
