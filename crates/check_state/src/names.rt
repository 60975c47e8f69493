//! What a name means at a place.
ghost use Rattle.std.specs.Prelude.{◌≡◌, option_map, IfOk};
ghost use Rattle.std.specs.Option.{option_copied};
ghost use Rattle.check_rules.specs.Names as spec;
ghost use Rattle.interface_records.specs.PlainTypes.{plain};
ghost use Rattle.check_rules.specs.Parts.{last_of};
ghost use Rattle.check_rules.specs.Scopes.{find};
ghost use Rattle.check_state.specs.Gives.{Gives, GivesOnly};
ghost use Rattle.check_state.specs.Views as view;

use crate::around::Around;
use crate::meaning::Meaning;
use crate::state::State;
use crate::types::is_ordinal;
use check_rules::syntax_trees::syntax::{QualifiedName, TypeBase};
use check_rules::{Cause, CheckFault};
use interface_records::check_scopes::Names;
use mesa_types::TypeTree;
use mesa_types::mesa_base::{Identifier, OutOfMemory, Place};
use std::alloc::Global;
use std::mem::drop;

fn shared(alloc: Global, found: Option<&Meaning>) -> Result<Option<Meaning>, OutOfMemory>
    ensures { IfOk result (λ copy. copy ≡ option_copied found.entry) }
{
    match found {
        None => Ok(None),
        Some(meaning) => Ok(Some(meaning.share(alloc)?)),
    }
}

/// What a name means in the scopes.
#[tactic(auto, using(crate::proofs::ScopeLaws::find_as), unfolding(crate::specs::Views::state, crate::specs::Views::scopes))]
fn in_scopes(
    alloc: Global,
    state: &State,
    name: &Identifier,
) -> Result<Option<Meaning>, OutOfMemory>
    ensures { IfOk result (λ found. option_map view.meaning found ≡ find name.now.name (view.state state.now).scopes) }
{
    shared(alloc, state.scopes.find(name.name.bytes()))
}

/// What a name means among these.
#[tactic(auto, unfolding(crate::specs::Views::names))]
fn among(
    alloc: Global,
    names: Option<&Names<Meaning>>,
    name: &Identifier,
) -> Result<Option<Meaning>, OutOfMemory>
    ensures { IfOk result (λ found. option_map view.meaning found ≡ view.further names.entry name.now.name) }
{
    match names {
        None => Ok(None),
        Some(names) => shared(alloc, names.get(name.name.bytes())),
    }
}

/// A name before the head that it is of, which is taken as if it were checked.
#[tactic(auto, unfolding(crate::specs::Views::around))]
fn before_head(
    alloc: Global,
    around: &Around<'_>,
    state: &State,
    name: &Identifier,
) -> Result<Meaning, CheckFault>
    ensures { Gives view.meaning (spec.before_head (view.around around.now).constant name.now.place ((view.around around.now).further name.now.name) (view.state state.now)) result (view.state state.now) }
{
    match (among(alloc, around.further, name)?, around.constant) {
        (Some(meaning), _) => Ok(meaning),
        (None, Some(start)) => Err(CheckFault::At(Cause::NotConstant, start)),
        (None, None) => Err(CheckFault::At(Cause::TypeMismatch, name.place)),
    }
}

/// What a name means that is found, or not.
#[tactic(auto, unfolding(check_rules::specs::Names::seen))]
fn seen(
    alloc: Global,
    around: &Around<'_>,
    state: &mut State,
    name: &Identifier,
    found: Option<Meaning>,
) -> Result<Meaning, CheckFault>
    ensures { Gives view.meaning (spec.seen (view.around around.now) name.now (option_map view.meaning found) (view.state state.old)) result (view.state state.new) }
{
    match found {
        None | Some(Meaning::Later) | Some(Meaning::NotImported) => {
            Err(CheckFault::At(Cause::UnknownName, name.place))
        }
        Some(Meaning::Headless) => before_head(alloc, around, state, name),
        Some(meaning) => {
            state.mark(&meaning);
            Ok(meaning)
        }
    }
}

/// What a name means, which is used from here on.
#[tactic(auto, unfolding(check_rules::specs::Names::named))]
pub fn named(
    alloc: Global,
    around: &Around<'_>,
    state: &mut State,
    name: &Identifier,
) -> Result<Meaning, CheckFault>
    ensures { Gives view.meaning (spec.named (view.around around.now) name.now (view.state state.old)) result (view.state state.new) }
{
    let found = in_scopes(alloc, state, name)?;
    seen(alloc, around, state, name, found)
}

/// What a name of the interface with this number in the DIRECTORY means.
#[tactic(auto, using(crate::proofs::ScopeLaws::slice_get_map), unfolding(check_rules::specs::Names::of_interface, crate::specs::Views::around, crate::specs::Views::known))]
pub fn of_interface(
    alloc: Global,
    around: &Around<'_>,
    state: &mut State,
    interface: u32,
    name: &Identifier,
) -> Result<Meaning, CheckFault>
    ensures { Gives view.meaning (spec.of_interface (view.around around.now) interface name.now (view.state state.old)) result (view.state state.new) }
{
    let found = among(alloc, around.known.interfaces.get(interface as usize), name)?;
    seen(alloc, around, state, name, found)
}

/// What a name means behind another, of this meaning, and a dot.
fn behind(
    alloc: Global,
    around: &Around<'_>,
    state: &mut State,
    first: &Option<Meaning>,
    name: &Identifier,
) -> Result<Meaning, CheckFault>
    ensures { Gives view.meaning (spec.in_meaning (view.around around.now) (option_map view.meaning first.now) name.now (view.state state.old)) result (view.state state.new) }
{
    match first {
        None | Some(Meaning::Later) | Some(Meaning::NotImported) => {
            Err(CheckFault::At(Cause::UnknownName, name.place))
        }
        Some(Meaning::Interface(number)) => of_interface(alloc, around, state, *number, name),
        Some(_) => Err(CheckFault::At(Cause::TypeMismatch, name.place)),
    }
}

/// What a name means behind another and a dot.
fn in_meaning(
    alloc: Global,
    around: &Around<'_>,
    state: &mut State,
    first: Option<Meaning>,
    name: &Identifier,
) -> Result<Meaning, CheckFault>
    ensures { Gives view.meaning (spec.in_meaning (view.around around.now) (option_map view.meaning first) name.now (view.state state.old)) result (view.state state.new) }
{
    let meaning = behind(alloc, around, state, &first, name);
    drop(first);
    meaning
}

/// What a name, or a name of an interface, means.
#[tactic(auto, unfolding(check_rules::specs::Names::qualified))]
pub fn qualified(
    alloc: Global,
    around: &Around<'_>,
    state: &mut State,
    name: &QualifiedName,
) -> Result<Meaning, CheckFault>
    ensures { Gives view.meaning (spec.qualified (view.around around.now) name.now (view.state state.old)) result (view.state state.new) }
{
    match &name.second {
        None => named(alloc, around, state, &name.first),
        Some(second) => {
            let first = in_scopes(alloc, state, &name.first)?;
            in_meaning(alloc, around, state, first, second)
        }
    }
}

/// The last part of a name, at which its faults are.
pub fn last_place(name: &QualifiedName) -> Place
    ensures { result ≡ (last_of name.now).place }
{
    match &name.second {
        None => name.first.place,
        Some(second) => second.place,
    }
}

/// The type that is meant, if one is.
fn type_in(alloc: Global, place: Place, meaning: &Meaning) -> Result<TypeTree, CheckFault>
    ensures { GivesOnly plain (spec.type_by place (view.meaning meaning.now)) result }
{
    match meaning {
        Meaning::TypeName(kind) => Ok(kind.copy(alloc)?),
        _ => Err(CheckFault::At(Cause::TypeMismatch, place)),
    }
}

fn type_by(alloc: Global, place: Place, meaning: Meaning) -> Result<TypeTree, CheckFault>
    ensures { GivesOnly plain (spec.type_by place (view.meaning meaning)) result }
{
    let kind = type_in(alloc, place, &meaning);
    drop(meaning);
    kind
}

/// The type that a name is of.
#[tactic(auto, unfolding(check_rules::specs::Names::type_named))]
pub fn type_named(
    alloc: Global,
    around: &Around<'_>,
    state: &mut State,
    name: &QualifiedName,
) -> Result<TypeTree, CheckFault>
    ensures { Gives plain (spec.type_named (view.around around.now) name.now (view.state state.old)) result (view.state state.new) }
{
    let meaning = qualified(alloc, around, state, name)?;
    type_by(alloc, last_place(name), meaning)
}

fn ordinal_type(place: Place, kind: TypeTree) -> Result<TypeTree, CheckFault>
    ensures { GivesOnly plain (spec.ordinal_type place (plain kind)) result }
{
    if is_ordinal(&kind) {
        Ok(kind)
    } else {
        Err(CheckFault::At(Cause::TypeMismatch, place))
    }
}

/// The type whose values an interval is of, where a word or a name says it.
#[tactic(auto, using(crate::proofs::TypeForms::type_forms), unfolding(check_rules::specs::Names::word_base))]
pub fn word_base(
    alloc: Global,
    around: &Around<'_>,
    state: &mut State,
    base: &TypeBase,
) -> Result<Option<TypeTree>, CheckFault>
    ensures { Gives (option_map plain) (spec.word_base (view.around around.now) base.now (view.state state.old)) result (view.state state.new) }
{
    match base {
        TypeBase::Unsaid => Ok(None),
        TypeBase::OfInteger(_) => Ok(Some(TypeTree::Integer)),
        TypeBase::OfCardinal(_) => Ok(Some(TypeTree::Cardinal)),
        TypeBase::OfCharacter(_) => Ok(Some(TypeTree::Character)),
        TypeBase::OfName(name) => {
            let kind = type_named(alloc, around, state, name)?;
            Ok(Some(ordinal_type(last_place(name), kind)?))
        }
    }
}
