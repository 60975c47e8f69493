//! What brackets behind something do.
ghost use Rattle.std.specs.Prelude.{◌≡◌, Some, option_map, IfOk};
ghost use Rattle.mesa_types.specs.Plain.{expr};
ghost use Rattle.mesa_types.specs.Typed as t;
ghost use Rattle.interface_records.specs.PlainTypes as v;
ghost use Rattle.interface_records.specs.PlainTypes.{plain, words_of};
ghost use Rattle.check_rules.specs.Reached as spec;
ghost use Rattle.check_state.specs.Gives.{GivesOnly};
ghost use Rattle.check_state.specs.Views.{typed};
ghost use Rattle.check_selectors.specs.Views as view;

use crate::reached::{Reached, variable};
use check_rules::{Cause, CheckFault};
use check_state::{
    Typed, array_parts, base_of, bounds, elements_of, is_text, narrow, one_ordinal_base, sign_of,
    size,
};
use check_values::range_for;
use held_trees::{LetGo, both, boxed_pair, pushed};
use mesa_base::{Boxed, OutOfMemory, Place};
use mesa_types::{Base, Extent, Home, Range, Suffix, Suffixes, TypeTree, TypedExpr};
use std::alloc::Global;

/// What brackets behind something do.
pub enum Bracketed {
    /// An element of an array, with its index and element types.
    InArray(Home, Suffixes, TypeTree, TypeTree),
    /// A byte of a string, with the words that it still counts.
    InText(u32, TypedExpr),
}

impl LetGo for Bracketed {
    fn let_go(self) {
        match self {
            Bracketed::InArray(_, suffixes, index, element) => {
                suffixes.let_go();
                index.let_go();
                element.let_go();
            }
            Bracketed::InText(_, value) => value.let_go(),
        }
    }
}

/// Of a string that is named, its byte is named; what a call gave is counted already.
pub fn text_at(
    last: Place,
    kind: TypeTree,
    words: u32,
    value: TypedExpr,
) -> Result<Bracketed, CheckFault>
    ensures { GivesOnly view.bracketed (spec.text_at last (plain kind) words (expr value)) result }
{
    let is_text = is_text(&kind);
    kind.let_go();
    if is_text {
        Ok(Bracketed::InText(words.min(1), value))
    } else {
        value.let_go();
        Err(CheckFault::At(Cause::TypeMismatch, last))
    }
}

/// An index is checked by its own base, where that is not the index type's.
#[tactic(auto, unfolding(check_rules::specs::Ranges::range_for))]
fn index_range(from: &TypeTree, to: &TypeTree) -> Range
    ensures { result ≡ spec.index_range (plain from.now) (plain to.now) }
{
    match (sign_of(from), sign_of(to), bounds(to)) {
        (Base::Signed, Base::Unsigned, Some(_)) | (Base::Unsigned, Base::Signed, Some(_)) => {
            range_for(from, to)
        }
        _ => Range::Every,
    }
}

fn first_word(bounds: Option<(u16, u16)>) -> u16
    ensures { result ≡ spec.first_word bounds }
{
    match bounds {
        Some((first, _)) => first,
        None => 0,
    }
}

fn extent(from: &TypeTree, index: &TypeTree, element: &TypeTree) -> Result<Extent, OutOfMemory>
    ensures { IfOk result (λ x. x ≡ record { check = spec.index_range (plain from.now) (plain index.now); first = spec.first_word (v.bounds (plain index.now)); elements = v.elements_of (plain index.now); words = words_of (plain element.now) }) }
{
    Ok(Extent {
        check: index_range(from, index),
        first: first_word(bounds(index)),
        elements: narrow(elements_of(index))?,
        words: size(element)?,
    })
}

/// The element of an array with this index, which begins at `start` and is not LONG.
#[tactic(auto, using(crate::proofs::SuffixLaws::index_more), unfolding(check_rules::specs::Reached::at_index))]
fn in_array(
    start: Place,
    home: Home,
    suffixes: Suffixes,
    of: (TypeTree, TypeTree),
    i: Typed,
) -> Result<Reached, CheckFault>
    ensures { GivesOnly view.reached (spec.at_index (spec.InArray home (view.suffixes suffixes) (plain of.0) (plain of.1)) start (typed i)) result }
{
    let (index, element) = of;
    if !one_ordinal_base(base_of(&i.kind), base_of(&index)) {
        ((suffixes, i), (index, element)).let_go();
        return Err(CheckFault::At(Cause::TypeMismatch, start));
    }
    let extent = extent(&i.kind, &index, &element);
    index.let_go();
    let value = i.into_value();
    let (((suffixes, element), value), extent) = both(((suffixes, element), value), extent)?;
    let (element, suffixes) = both(element, pushed(suffixes, Suffix::Index(extent, value)))?;
    Ok(Reached::Variable(home, suffixes, element))
}

#[tactic(auto, using(check_state::proofs::TypeForms::type_forms))]
fn is_number(kind: &TypeTree) -> bool
    ensures { result ≡ v.one_ordinal_base (v.base_of (plain kind.now)) (Some v.Integer) }
{
    let integer = TypeTree::Integer;
    let is_number = one_ordinal_base(base_of(kind), Some(&integer));
    integer.let_go();
    is_number
}

fn byte(text: Boxed<TypedExpr>, number: Boxed<TypedExpr>) -> TypedExpr
    ensures { expr result ≡ t.ByteOf (expr text) (expr number) }
{
    TypedExpr::ByteOf(text, number)
}

/// The byte of a string with this index, which begins at `start` and is not LONG.
#[tactic(auto, using(check_state::proofs::TypeForms::type_forms), unfolding(check_rules::specs::Reached::at_index))]
fn in_text(
    alloc: Global,
    start: Place,
    words: u32,
    text: TypedExpr,
    i: Typed,
) -> Result<Reached, CheckFault>
    ensures { GivesOnly view.reached (spec.at_index (spec.InText words (expr text)) start (typed i)) result }
{
    if !is_number(&i.kind) {
        (text, i).let_go();
        return Err(CheckFault::At(Cause::TypeMismatch, start));
    }
    let (text, i) = boxed_pair(alloc, text, i.into_value())?;
    Ok(Reached::Value(words, byte(text, i), TypeTree::Character))
}

/// What an index that begins at `start` leads to.
pub fn at_index(
    alloc: Global,
    bracketed: Bracketed,
    start: Place,
    i: Typed,
) -> Result<Reached, CheckFault>
    ensures { GivesOnly view.reached (spec.at_index (view.bracketed bracketed) start (typed i)) result }
{
    match bracketed {
        Bracketed::InArray(home, suffixes, index, element) => {
            in_array(start, home, suffixes, (index, element), i)
        }
        Bracketed::InText(words, text) => in_text(alloc, start, words, text, i),
    }
}

fn parts(alloc: Global, kind: &TypeTree) -> Result<Option<(TypeTree, TypeTree)>, OutOfMemory>
    ensures { IfOk result (λ parts. option_map (λ p. (plain p.0, plain p.1)) parts ≡ v.array_parts (plain kind.now)) }
{
    match array_parts(kind) {
        Some((index, element)) => Ok(Some(both(index.copy(alloc)?, element.copy(alloc))?)),
        None => Ok(None),
    }
}

/// What brackets behind a variable do.
#[tactic(auto, unfolding(check_rules::specs::Reached::indexed))]
pub fn indexed(
    alloc: Global,
    last: Place,
    home: Home,
    suffixes: Suffixes,
    kind: TypeTree,
) -> Result<Bracketed, CheckFault>
    ensures { GivesOnly view.bracketed (spec.indexed last home (view.suffixes suffixes) (plain kind)) result }
{
    let parts = parts(alloc, &kind);
    let ((suffixes, kind), parts) = both((suffixes, kind), parts)?;
    match parts {
        Some((index, element)) => {
            kind.let_go();
            Ok(Bracketed::InArray(home, suffixes, index, element))
        }
        None => {
            let words = size(&kind);
            let ((suffixes, kind), words) = both((suffixes, kind), words)?;
            text_at(last, kind, 1, variable(home, suffixes, words))
        }
    }
}
