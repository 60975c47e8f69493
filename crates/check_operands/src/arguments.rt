//! What lists of values are for, and what is made of them.
ghost use Rattle.std.specs.Prelude.{◌≡◌, [], option_map, true, IfOk};
ghost use Rattle.std.specs.Option.{option_copied};
ghost use Rattle.mesa_types.specs.Plain.{expr, phrase};
ghost use Rattle.check_rules.specs.interface_records.specs.PlainTypes.{PlainField, plain, plain_field};
ghost use Rattle.check_rules.specs.Typed as t;
ghost use Rattle.check_rules.specs.Reached as rule;
ghost use Rattle.check_rules.specs.Values as spec;
ghost use Rattle.check_state.specs.Gives.{Gives, GivesOnly};
ghost use Rattle.check_state.specs.Views as words;
ghost use Rattle.check_selectors.specs.Views as reaching;
ghost use Rattle.check_operands.specs.Lists as lists;
ghost use Rattle.check_operands.specs.Runs as runs;
ghost use Rattle.check_operands.specs.Views as view;

use check_rules::{Cause, CheckFault};
use check_selectors::{Bracketed, Reached, Shape, indexed, let_meaning_go, shape_of, text_at};
use check_state::{
    Aim, Around, Meaning, State, Typed, fields_size, last_place, of_kind, qualified, size,
};
use held_trees::{LetGo, both, boxed};
use mesa_base::{List, Numbers, OutOfMemory, Place, Shared};
use mesa_types::{Callee, Exprs, FieldType, Item, ItemKind, Phrase, Raised, TypeTree, TypedExpr};
use std::alloc::Global;
use syntax_trees::syntax::QualifiedName;

/// The values of a list, and which parameter, result or field each is for; without places they stand in order.
pub struct Arguments {
    pub places: Numbers,
    pub values: Exprs,
}

impl LetGo for Arguments {
    fn let_go(self) {
        let Arguments { places: _, values } = self;
        values.let_go();
    }
}

/// The types that the values of a list are given to.
#[derive(Clone, Copy)]
pub enum Wanted<'a> {
    /// Those of the fields, in order.
    Each(&'a [FieldType]),
    /// Those of the fields at these places.
    Placed(&'a [FieldType], &'a [u32]),
    /// This one for all.
    All(&'a TypeTree),
}

#[tactic(auto, using(check_state::proofs::TypeForms::parts_of_field))]
fn kind_of(field: Option<&FieldType>) -> Option<&TypeTree>
    ensures { option_map plain (option_copied result) ≡ option_map (λ (f : PlainField). f.kind) (option_map plain_field (option_copied field.entry)) }
{
    match field {
        Some(field) => Some(&field.kind),
        None => None,
    }
}

/// The type of the field with this number.
#[tactic(auto, using(check_state::proofs::ScopeLaws::slice_get_map))]
fn kind_in(fields: &[FieldType], number: usize) -> Option<&TypeTree>
    ensures { option_map plain (option_copied result) ≡ lists.kind_in (words.fields fields.now) number }
{
    kind_of(fields.get(number))
}

impl<'a> Wanted<'a> {
    /// The type for the value with this number.
    pub fn at(&self, number: usize) -> Option<&'a TypeTree>
        ensures { option_map plain (option_copied result) ≡ view.wanted self.now number }
    {
        match self {
            Wanted::Each(fields) => kind_in(fields, number),
            Wanted::Placed(fields, places) => match places.get(number) {
                Some(place) => kind_in(fields, *place as usize),
                None => None,
            },
            Wanted::All(kind) => Some(*kind),
        }
    }
}

/// How many values in order a constructor of a type has, and their types.
pub fn ordered(kind: &TypeTree, place: Place) -> Result<(usize, Wanted<'_>), CheckFault>
    ensures { GivesOnly view.ordered (lists.ordered (plain kind.now) place) result }
{
    match shape_of(kind) {
        Shape::OfFields(fields) => Ok((fields.len(), Wanted::Each(fields))),
        Shape::OfElements(count, element) => Ok((count, Wanted::All(element))),
        Shape::NoShape => Err(CheckFault::At(Cause::TypeMismatch, place)),
    }
}

/// The fields that a constructor of a type names; any other type is refused at the first place.
pub fn keyed_fields(kind: &TypeTree, at: (Place, Place)) -> Result<&[FieldType], CheckFault>
    ensures { GivesOnly (λ fields. words.fields fields.now) (lists.keyed_fields (plain kind.now) at.0 at.1) result }
{
    match shape_of(kind) {
        Shape::OfFields(fields) => Ok(fields),
        Shape::OfElements(_, _) => Err(CheckFault::At(Cause::WrongCount, at.1)),
        Shape::NoShape => Err(CheckFault::At(Cause::TypeMismatch, at.0)),
    }
}

/// What a value is for that is given to this type, if there is one, and begins here.
pub fn aim_for(kind: Option<&TypeTree>, start: Place) -> Aim<'_>
    ensures { words.aim result ≡ spec.bound_aim (option_map plain (option_copied kind.entry)) start }
{
    match kind {
        Some(kind) => Aim::Into(kind, start),
        None => Aim::Free(start),
    }
}

/// What brackets do behind what was reached.
pub enum Applied {
    ToIndex(Bracketed),
    ToCall(Callee, Shared<Item>),
    ToConstruct(TypeTree),
}

/// What brackets do behind what was reached; `last` is the place of the last name.
pub fn applied_to(alloc: Global, last: Place, of: Reached) -> Result<Applied, CheckFault>
    ensures { GivesOnly view.applied (runs.applied last (reaching.reached of)) result }
{
    match of {
        Reached::Variable(home, suffixes, kind) => {
            let at = indexed(alloc, last, home, suffixes, kind)?;
            Ok(Applied::ToIndex(at))
        }
        Reached::Value(words, value, kind) => {
            let at = text_at(last, kind, words, value)?;
            Ok(Applied::ToIndex(at))
        }
        Reached::Named(Meaning::Procedure(callee, head)) => Ok(Applied::ToCall(callee, head)),
        Reached::Named(Meaning::TypeName(kind)) => Ok(Applied::ToConstruct(kind)),
        other => {
            other.let_go();
            Err(CheckFault::At(Cause::TypeMismatch, last))
        }
    }
}

/// Values in order.
pub fn in_order(alloc: Global, values: Exprs) -> Arguments
    ensures { view.arguments result ≡ spec.in_order (view.exprs values) }
{
    Arguments {
        places: List::new(alloc),
        values,
    }
}

#[tactic(auto, unfolding(crate::specs::Views::exprs))]
fn construct(given: Arguments) -> TypedExpr
    ensures { expr result ≡ t.Construct (view.arguments given).places (view.arguments given).values }
{
    let Arguments { places, values } = given;
    TypedExpr::Construct(places, values)
}

/// A value of this type with these parts.
pub fn made(alloc: Global, kind: &TypeTree, given: Arguments) -> Result<Typed, OutOfMemory>
    ensures { IfOk result (λ made. words.typed made ≡ spec.made (plain kind.now) (view.arguments given)) }
{
    let (given, kind) = both(given, kind.copy(alloc))?;
    Ok(of_kind(kind, construct(given)))
}

/// A constructor of so many values counts its own size.
pub fn counted(
    state: &mut State,
    kind: &TypeTree,
    place: Place,
    given: usize,
    wanted: usize,
) -> Result<(), CheckFault>
    ensures { Gives (λ _. tt) (lists.counted (plain kind.now) place given wanted (words.state state.old)) result (words.state state.new) }
{
    if given != wanted {
        return Err(CheckFault::At(Cause::WrongCount, place));
    }
    let words = size(kind)?;
    state.spend(words)
}

/// A type's name that stands before brackets is that of a record or an array.
pub fn has_parts(kind: &TypeTree, place: Place) -> Result<(), CheckFault>
    ensures { GivesOnly (λ _. tt) (spec.has_parts (plain kind.now) place) result }
{
    match shape_of(kind) {
        Shape::OfFields(_) | Shape::OfElements(_, _) => Ok(()),
        Shape::NoShape => Err(CheckFault::At(Cause::TypeMismatch, place)),
    }
}

/// What a call gives.
#[tactic(auto, unfolding(crate::specs::Views::exprs))]
pub fn called(
    alloc: Global,
    callee: Callee,
    size: u32,
    given: Arguments,
    catch: Phrase,
    head: Shared<Item>,
) -> Result<Reached, OutOfMemory>
    ensures { IfOk result (λ made. reaching.reached made ≡ lists.called callee size (view.arguments given) (phrase catch) (words.fields head.gives)) }
{
    let ((given, head), catch) = both((given, head), boxed(alloc, catch))?;
    let Arguments { places, values } = given;
    Ok(Reached::Results(
        TypedExpr::Call(callee, places, values, size, catch),
        Some(head),
    ))
}

/// A signal or error that is raised by the word of its declaration.
pub struct Raises {
    pub raised: Raised,
    pub head: Shared<Item>,
}

impl LetGo for Raises {
    fn let_go(self) {
        let Raises { raised: _, head } = self;
        head.let_go();
    }
}

fn raises_by(kind: ItemKind, place: Place, meaning: Meaning) -> Result<Raises, CheckFault>
    ensures { GivesOnly view.raises (spec.raises_by kind place (words.meaning meaning)) result }
{
    match meaning {
        Meaning::Signal(raised, head) => {
            if is_kind(kind, head.get().kind) {
                Ok(Raises { raised, head })
            } else {
                head.let_go();
                Err(CheckFault::At(Cause::TypeMismatch, place))
            }
        }
        other => {
            let_meaning_go(other);
            Err(CheckFault::At(Cause::TypeMismatch, place))
        }
    }
}

fn is_kind(word: ItemKind, of: ItemKind) -> bool
    ensures { result ≡ spec.is_kind word of }
{
    match (word, of) {
        (ItemKind::Signal, ItemKind::Signal) | (ItemKind::Error, ItemKind::Error) => true,
        _ => false,
    }
}

/// What a raise raises, by its word and the name behind it.
#[tactic(auto, unfolding(crate::specs::Lists::raises))]
pub fn what_is_raised(
    alloc: Global,
    around: &Around<'_>,
    state: &mut State,
    kind: ItemKind,
    name: &QualifiedName,
) -> Result<Raises, CheckFault>
    ensures { Gives view.raises (lists.raises (words.around around.now) kind name.now (words.state state.old)) result (words.state state.new) }
{
    let meaning = qualified(alloc, around, state, name)?;
    raises_by(kind, last_place(name), meaning)
}

/// What a raise gives.
#[tactic(auto, unfolding(crate::specs::Views::exprs))]
pub fn raised(
    alloc: Global,
    of: Raises,
    size: u32,
    given: Arguments,
    catch: Phrase,
) -> Result<Reached, OutOfMemory>
    ensures { IfOk result (λ made. reaching.reached made ≡ lists.raised (view.raises of) size (view.arguments given) (phrase catch)) }
{
    let ((given, of), catch) = both((given, of), boxed(alloc, catch))?;
    let Arguments { places, values } = given;
    let Raises { raised, head } = of;
    Ok(Reached::Results(
        TypedExpr::Raise(raised, places, values, size, catch),
        Some(head),
    ))
}

/// The size of what a head gives.
pub fn words_given(head: &Item) -> Result<u32, OutOfMemory>
    ensures { IfOk result (λ size. size ≡ lists.words_given (words.fields head.now.gives)) }
{
    fields_size(head.gives.as_slice())
}

/// No values.
#[tactic(auto, unfolding(crate::specs::Views::exprs))]
pub fn nothing_given(alloc: Global) -> Arguments
    ensures { view.arguments result ≡ spec.in_order t.NoExprs }
{
    Arguments {
        places: List::new(alloc),
        values: List::new(alloc),
    }
}

fn no_phrase() -> Phrase
    ensures { phrase result ≡ t.NoPhrase }
{
    Phrase::NoPhrase
}

/// A raise without brackets is of what has no parameters.
pub fn bare_raise(
    alloc: Global,
    state: &mut State,
    place: Place,
    what: Raises,
) -> Result<Reached, CheckFault>
    ensures { Gives reaching.reached (lists.bare_raise place (view.raises what) (words.state state.old)) result (words.state state.new) }
{
    if !what.head.get().takes.is_empty() {
        what.let_go();
        return Err(CheckFault::At(Cause::WrongCount, place));
    }
    let words = words_given(what.head.get());
    let (what, words) = both(what, words)?;
    let (what, _) = both(what, state.spend(words))?;
    let given = nothing_given(alloc);
    Ok(raised(alloc, what, words, given, no_phrase())?)
}

/// ERROR without a name.
pub fn unnamed(alloc: Global) -> Result<Reached, OutOfMemory>
    ensures { IfOk result (λ made. reaching.reached made ≡ rule.Results (t.Raise t.TheUnnamed [] t.NoExprs 0 t.NoPhrase) []) }
{
    let phrase = boxed(alloc, Phrase::NoPhrase)?;
    Ok(Reached::Results(
        TypedExpr::Raise(
            Raised::TheUnnamed,
            List::new(alloc),
            List::new(alloc),
            0,
            phrase,
        ),
        None,
    ))
}
