//! Fields by name.
ghost use Rattle.std.specs.Prelude.{◌≡◌, ◌+◌, [], ◌∷◌, ◌++◌, option_map, map, min, IfOk};
ghost use Rattle.mesa_types.specs.Plain.{expr};
ghost use Rattle.mesa_types.specs.Typed as t;
ghost use Rattle.check_rules.specs.Parts as spec;
ghost use Rattle.interface_records.specs.PlainTypes.{plain, plain_field, words_of};
ghost use Rattle.check_rules.specs.Reached as rule;
ghost use Rattle.check_state.specs.Gives.{Gives, GivesOnly};
ghost use Rattle.check_state.specs.Views as words;
ghost use Rattle.check_selectors.specs.Components as step;
ghost use Rattle.check_selectors.specs.Views as view;

use crate::reached::{Reached, led_to, variable};
use check_rules::{Cause, CheckFault};
use check_state::{Around, Meaning, State, fields, is_text, next, of_interface, size};
use held_trees::{LetGo, both, boxed, pushed};
use mesa_base::{Boxed, Identifier, List, Name, OutOfMemory, Place};
use mesa_types::{FieldType, Home, Part, Parts, Suffix, Suffixes, TypeTree, TypedExpr};
use std::alloc::Global;

/// A field or parameter: its number, the words before it, its type.
pub struct Found {
    pub number: u32,
    pub offset: u32,
    pub kind: TypeTree,
}

impl LetGo for Found {
    fn let_go(self) {
        let Found {
            number: _,
            offset: _,
            kind,
        } = self;
        kind.let_go();
    }
}

pub(crate) fn has_name(name: &Identifier, label: &Option<Name>) -> bool
    ensures { result ≡ spec.has_name name.now.name label.now }
{
    match label {
        Some(label) => name.name.bytes() == label.bytes(),
        None => false,
    }
}

fn past(offset: u32, kind: &TypeTree) -> Result<u32, OutOfMemory>
    ensures { IfOk result (λ words. words ≡ offset + words_of (plain kind.now)) }
{
    let words = size(kind)?;
    match offset.checked_add(words) {
        Some(past) => Ok(past),
        None => Err(OutOfMemory),
    }
}

/// The first of the fields with this name.
pub fn field_named(
    alloc: Global,
    fields: &[FieldType],
    name: &Identifier,
) -> Result<Option<Found>, OutOfMemory>
    ensures { IfOk result (λ found. option_map view.found found ≡ spec.field_named (map plain_field fields.now) name.now) }
{
    let mut number = 0u32;
    let mut offset = 0u32;
    for field in fields {
        if has_name(name, &field.name) {
            let kind = field.kind.copy(alloc)?;
            return Ok(Some(Found {
                number,
                offset,
                kind,
            }));
        }
        number = next(number)?;
        offset = past(offset, &field.kind)?;
    }
    Ok(None)
}

/// What a name behind a dot is of a value.
pub enum Component {
    OfField(Found),
    /// The length of a STRING.
    Length,
}

impl LetGo for Component {
    fn let_go(self) {
        match self {
            Component::OfField(found) => found.let_go(),
            Component::Length => (),
        }
    }
}

fn is_length(name: &Identifier) -> bool
    ensures { result ≡ rule.is_length name.now }
{
    name.name.bytes() == b"length".as_slice()
}

/// The field of a record, or the length of a STRING; `last` is the last name before it.
fn behind_dot(
    alloc: Global,
    last: Place,
    kind: &TypeTree,
    name: &Identifier,
) -> Result<Component, CheckFault>
    ensures { GivesOnly view.component (step.component last (plain kind.now) name.now) result }
{
    match fields(kind) {
        Some(fields) => match field_named(alloc, fields, name)? {
            Some(found) => Ok(Component::OfField(found)),
            None => Err(CheckFault::At(Cause::UnknownName, name.place)),
        },
        None => {
            if !is_text(kind) {
                Err(CheckFault::At(Cause::TypeMismatch, last))
            } else if is_length(name) {
                Ok(Component::Length)
            } else {
                Err(CheckFault::At(Cause::UnknownName, name.place))
            }
        }
    }
}

fn length(of: Boxed<TypedExpr>) -> TypedExpr
    ensures { expr result ≡ t.LengthOf (expr of) }
{
    TypedExpr::LengthOf(of)
}

#[tactic(auto, using(check_state::proofs::TypeForms::type_forms))]
fn length_of(alloc: Global, words: u32, text: TypedExpr) -> Result<Reached, OutOfMemory>
    ensures { IfOk result (λ made. view.reached made ≡ step.length words (expr text)) }
{
    let text = boxed(alloc, text)?;
    Ok(Reached::Value(words, length(text), TypeTree::Cardinal))
}

#[tactic(auto, using(crate::proofs::SuffixLaws::field_more))]
fn field_of_variable(home: Home, suffixes: Suffixes, found: Found) -> Result<Reached, OutOfMemory>
    ensures { IfOk result (λ made. view.reached made ≡ rule.field_of_variable home (view.suffixes suffixes) (view.found found)) }
{
    let Found {
        number,
        offset,
        kind,
    } = found;
    let (kind, suffixes) = both(kind, pushed(suffixes, Suffix::Field(number, offset)))?;
    Ok(Reached::Variable(home, suffixes, kind))
}

/// The component of a variable.
#[tactic(auto, using(crate::proofs::ComponentLaws::field_in_steps))]
fn behind_variable(
    alloc: Global,
    last: Place,
    of: (Home, Suffixes, TypeTree),
    name: &Identifier,
) -> Result<Reached, CheckFault>
    ensures { GivesOnly view.reached (rule.field_in last (rule.field_of_variable of.0 (view.suffixes of.1)) 1 (t.Variable of.0 (view.suffixes of.1) (words_of (plain of.2))) (plain of.2) name.now) result }
{
    let (home, suffixes, kind) = of;
    let found = behind_dot(alloc, last, &kind, name);
    let ((suffixes, kind), found) = both((suffixes, kind), found)?;
    match found {
        Component::OfField(found) => {
            kind.let_go();
            Ok(field_of_variable(home, suffixes, found)?)
        }
        Component::Length => {
            let words = size(&kind);
            kind.let_go();
            let (suffixes, words) = both(suffixes, words)?;
            Ok(length_of(alloc, 1, variable(home, suffixes, words))?)
        }
    }
}

fn longer(mut parts: Parts, part: Part) -> Result<Parts, OutOfMemory>
    ensures { IfOk result (λ more. more ≡ parts ++ part ∷ []) }
{
    parts.push(part)?;
    Ok(parts)
}

/// The expression with one part more behind it.
fn and_part(alloc: Global, value: TypedExpr, part: Part) -> Result<TypedExpr, OutOfMemory>
    ensures { IfOk result (λ made. expr made ≡ spec.and_part (expr value) part) }
{
    match value {
        TypedExpr::FieldOf(of, parts) => {
            let (of, parts) = both(of, longer(parts, part))?;
            Ok(TypedExpr::FieldOf(of, parts))
        }
        value => {
            let of = boxed(alloc, value)?;
            let (of, parts) = both(of, longer(List::new(alloc), part))?;
            Ok(TypedExpr::FieldOf(of, parts))
        }
    }
}

fn field_of_value(
    alloc: Global,
    words: u32,
    value: TypedExpr,
    found: Found,
) -> Result<Reached, OutOfMemory>
    ensures { IfOk result (λ made. view.reached made ≡ rule.field_of_value words (expr value) (view.found found)) }
{
    let Found {
        number,
        offset,
        kind,
    } = found;
    let size = size(&kind);
    let ((value, kind), size) = both((value, kind), size)?;
    let part = Part {
        field: number,
        offset,
        words: size,
    };
    let (kind, value) = both(kind, and_part(alloc, value, part))?;
    Ok(Reached::Value(words, value, kind))
}

/// The component of a value.
#[tactic(auto, using(crate::proofs::ComponentLaws::field_in_steps))]
fn behind_value(
    alloc: Global,
    last: Place,
    of: (u32, TypedExpr, TypeTree),
    name: &Identifier,
) -> Result<Reached, CheckFault>
    ensures { GivesOnly view.reached (rule.field_in last (rule.field_of_value of.0 (expr of.1)) (min of.0 1) (expr of.1) (plain of.2) name.now) result }
{
    let (words, value, kind) = of;
    let found = behind_dot(alloc, last, &kind, name);
    kind.let_go();
    let (value, found) = both(value, found)?;
    match found {
        Component::OfField(found) => Ok(field_of_value(alloc, words, value, found)?),
        Component::Length => Ok(length_of(alloc, words.min(1), value)?),
    }
}

/// What a name behind a dot leads to; `last` is the last name before it.
#[tactic(auto, unfolding(check_rules::specs::Reached::field))]
pub fn field(
    alloc: Global,
    around: &Around<'_>,
    state: &mut State,
    last: Place,
    of: Reached,
    name: &Identifier,
) -> Result<Reached, CheckFault>
    ensures { Gives view.reached (rule.field (words.around around.now) last (view.reached of) name.now (words.state state.old)) result (words.state state.new) }
{
    match of {
        Reached::Variable(home, suffixes, kind) => {
            behind_variable(alloc, last, (home, suffixes, kind), name)
        }
        Reached::Value(words, value, kind) => {
            behind_value(alloc, last, (words, value, kind), name)
        }
        Reached::Named(Meaning::Interface(number)) => {
            let meaning = of_interface(alloc, around, state, number, name)?;
            Ok(led_to(alloc, meaning)?)
        }
        other => {
            other.let_go();
            Err(CheckFault::At(Cause::TypeMismatch, last))
        }
    }
}
