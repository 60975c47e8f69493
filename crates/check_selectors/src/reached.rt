//! What a name has led to.
ghost use Rattle.std.specs.Prelude.{◌≡◌, [], option_map, Some, IfOk};
ghost use Rattle.mesa_types.specs.Plain.{expr};
ghost use Rattle.mesa_types.specs.Typed as t;
ghost use Rattle.interface_records.specs.PlainTypes.{is_long, plain, plain_item, words_of};
ghost use Rattle.check_rules.specs.Reached as spec;
ghost use Rattle.check_state.specs.Gives.{Gives, GivesOnly};
ghost use Rattle.check_state.specs.Views as words;
ghost use Rattle.check_selectors.specs.Views as view;

use check_rules::{Cause, CheckFault};
use check_state::{
    Aim, Gave, Meaning, State, Typed, array_parts, elements_of, fields, fields_size, is_long,
    narrower, of_kind, size,
};
use held_trees::{LetGo, both, boxed};
use mesa_base::{List, OutOfMemory, Place, Shared};
use mesa_types::{Callee, FieldType, Home, Item, Phrase, Suffixes, TypeTree, TypedExpr};
use std::alloc::Global;

/// What a name has led to.
pub enum Reached {
    /// A variable or a part of one.
    Variable(Home, Suffixes, TypeTree),
    /// With the words that it still counts for its statement.
    Value(u32, TypedExpr, TypeTree),
    /// What a call or a raise gave, which is counted already: the results of this head, if there is one.
    Results(TypedExpr, Option<Shared<Item>>),
    Named(Meaning),
}

impl LetGo for Reached {
    fn let_go(self) {
        match self {
            Reached::Variable(_, suffixes, kind) => {
                suffixes.let_go();
                kind.let_go();
            }
            Reached::Value(_, value, kind) => {
                value.let_go();
                kind.let_go();
            }
            Reached::Results(value, head) => {
                value.let_go();
                head.let_go();
            }
            Reached::Named(meaning) => let_meaning_go(meaning),
        }
    }
}

/// Lets go what a name means.
pub fn let_meaning_go(meaning: Meaning) {
    match meaning {
        Meaning::Variable(_, kind) | Meaning::Constant(kind, _) | Meaning::TypeName(kind) => {
            kind.let_go()
        }
        Meaning::Procedure(_, head) => head.let_go(),
        Meaning::Signal(_, head) => head.let_go(),
        Meaning::TextConstant(_)
        | Meaning::Interface(_)
        | Meaning::Later
        | Meaning::Headless
        | Meaning::NotImported => (),
    }
}

fn text(number: u16) -> TypedExpr
    ensures { expr result ≡ t.Literal number }
{
    TypedExpr::Literal(number)
}

/// The expression of a variable.
#[tactic(auto, unfolding(crate::specs::Views::suffixes))]
pub(crate) fn variable(home: Home, suffixes: Suffixes, words: u32) -> TypedExpr
    ensures { expr result ≡ t.Variable home (view.suffixes suffixes) words }
{
    TypedExpr::Variable(home, suffixes, words)
}

/// A constant's value, of one word or LONG.
fn constant_value(is_long: bool, value: u32) -> Result<TypedExpr, OutOfMemory>
    ensures { IfOk result (λ made. expr made ≡ spec.constant_value is_long value) }
{
    if is_long {
        Ok(TypedExpr::LongNumber(value))
    } else {
        Ok(TypedExpr::Number(narrower(value as usize)?))
    }
}

fn constant(kind: TypeTree, value: u32) -> Result<Reached, OutOfMemory>
    ensures { IfOk result (λ made. view.reached made ≡ spec.Value (words_of (plain kind)) (spec.constant_value (is_long (plain kind)) value) (plain kind)) }
{
    let words = size(&kind);
    let (kind, words) = both(kind, words)?;
    let value = constant_value(is_long(&kind), value);
    let (kind, value) = both(kind, value)?;
    Ok(Reached::Value(words, value, kind))
}

/// What a name leads to.
#[tactic(auto, using(check_state::proofs::TypeForms::type_forms), unfolding(check_rules::specs::Reached::reached, crate::specs::Views::suffixes))]
pub fn led_to(alloc: Global, meaning: Meaning) -> Result<Reached, OutOfMemory>
    ensures { IfOk result (λ made. view.reached made ≡ spec.reached (words.meaning meaning)) }
{
    match meaning {
        Meaning::Variable(home, kind) => Ok(Reached::Variable(home, List::new(alloc), kind)),
        Meaning::Constant(kind, value) => constant(kind, value),
        Meaning::TextConstant(number) => Ok(Reached::Value(2, text(number), TypeTree::String)),
        other => Ok(Reached::Named(other)),
    }
}

/// The type of what is one alone.
#[tactic(auto, using(crate::proofs::ReachedLaws::alone_one))]
fn alone_in(alloc: Global, fields: &[FieldType]) -> Result<Option<TypeTree>, OutOfMemory>
    ensures { IfOk result (λ kind. option_map plain kind ≡ view.alone (words.fields fields.now)) }
{
    match fields {
        [only] => Ok(Some(only.kind.copy(alloc)?)),
        _ => Ok(None),
    }
}

/// The type of the one result of a head.
fn alone(alloc: Global, head: &Option<Shared<Item>>) -> Result<Option<TypeTree>, OutOfMemory>
    ensures { IfOk result (λ kind. option_map plain kind ≡ view.alone (view.results head.now)) }
{
    match head {
        None => Ok(None),
        Some(head) => alone_in(alloc, head.get().gives.as_slice()),
    }
}

/// One result is a value.
#[tactic(auto, using(crate::proofs::ReachedLaws::settled_one, crate::proofs::ReachedLaws::settled_other))]
pub fn settled(alloc: Global, r: Reached) -> Result<Reached, OutOfMemory>
    ensures { IfOk result (λ found. view.reached found ≡ spec.settled (view.reached r)) }
{
    match r {
        Reached::Results(value, head) => {
            let only = alone(alloc, &head);
            let ((value, head), only) = both((value, head), only)?;
            match only {
                Some(kind) => Ok(Reached::Value(0, value, kind)),
                None => Ok(Reached::Results(value, head)),
            }
        }
        other => Ok(other),
    }
}

fn gave_of(head: Option<Shared<Item>>) -> Gave
    ensures { words.gave result ≡ Some (view.results head) }
{
    match head {
        None => Gave::NoResults,
        Some(head) => Gave::ResultsOf(head),
    }
}

/// The value of what a call or a raise gave.
#[tactic(auto, using(check_state::proofs::TypeForms::type_forms, crate::proofs::ReachedLaws::results_one, crate::proofs::ReachedLaws::results_other))]
fn results(
    alloc: Global,
    aim: Aim<'_>,
    value: TypedExpr,
    head: Option<Shared<Item>>,
) -> Result<Typed, CheckFault>
    ensures { GivesOnly words.typed (spec.results (words.aim aim.entry) (expr value) (view.results head)) result }
{
    let only = alone(alloc, &head);
    let ((value, head), only) = both((value, head), only)?;
    match (only, aim) {
        (Some(kind), _) => Ok(Typed {
            value,
            kind,
            literal: false,
            gave: gave_of(head),
        }),
        (None, Aim::Several(_)) => Ok(Typed {
            value,
            kind: TypeTree::Integer,
            literal: false,
            gave: gave_of(head),
        }),
        (None, Aim::Free(start) | Aim::Into(_, start)) => {
            (value, head).let_go();
            Err(CheckFault::At(Cause::TypeMismatch, start))
        }
    }
}

/// The value of what was reached; `last` is the place of the last name.
#[tactic(auto, unfolding(check_rules::specs::Reached::value))]
pub fn value(
    alloc: Global,
    state: &mut State,
    aim: Aim<'_>,
    last: Place,
    r: Reached,
) -> Result<Typed, CheckFault>
    ensures { Gives words.typed (spec.value (words.aim aim.entry) last (view.reached r) (words.state state.old)) result (words.state state.new) }
{
    match r {
        Reached::Variable(home, suffixes, kind) => {
            let words = size(&kind);
            let ((suffixes, kind), words) = both((suffixes, kind), words)?;
            let ((suffixes, kind), _) = both((suffixes, kind), state.spend(words))?;
            Ok(of_kind(kind, variable(home, suffixes, words)))
        }
        Reached::Value(words, value, kind) => {
            let ((value, kind), _) = both((value, kind), state.spend(words))?;
            Ok(of_kind(kind, value))
        }
        Reached::Results(value, head) => results(alloc, aim, value, head),
        Reached::Named(meaning) => {
            let_meaning_go(meaning);
            Err(CheckFault::At(Cause::TypeMismatch, last))
        }
    }
}

/// A variable into which is stored.
pub struct Target {
    pub home: Home,
    pub suffixes: Suffixes,
    pub kind: TypeTree,
}

impl LetGo for Target {
    fn let_go(self) {
        let Target {
            home: _,
            suffixes,
            kind,
        } = self;
        suffixes.let_go();
        kind.let_go();
    }
}

/// The variable into which is stored; `last` is the place of the last name.
#[tactic(auto, unfolding(check_rules::specs::Reached::stored))]
pub fn stored(state: &mut State, last: Place, r: Reached) -> Result<Target, CheckFault>
    ensures { Gives view.target (spec.stored last (view.reached r) (words.state state.old)) result (words.state state.new) }
{
    match r {
        Reached::Variable(home, suffixes, kind) => {
            let words = size(&kind);
            let ((suffixes, kind), words) = both((suffixes, kind), words)?;
            let ((suffixes, kind), _) = both((suffixes, kind), state.spend(words))?;
            Ok(Target {
                home,
                suffixes,
                kind,
            })
        }
        other => {
            other.let_go();
            Err(CheckFault::At(Cause::TypeMismatch, last))
        }
    }
}

/// A call without a phrase.
pub fn call_of(alloc: Global, callee: Callee, words: u32) -> Result<TypedExpr, OutOfMemory>
    ensures { IfOk result (λ made. expr made ≡ t.Call callee [] t.NoExprs words t.NoPhrase) }
{
    let phrase = boxed(alloc, Phrase::NoPhrase)?;
    Ok(TypedExpr::Call(callee, List::new(alloc), List::new(alloc), words, phrase))
}

/// A procedure that is called by its name alone has no parameters.
fn bare_call(
    alloc: Global,
    state: &mut State,
    start: Place,
    callee: Callee,
    head: &Item,
) -> Result<TypedExpr, CheckFault>
    ensures { Gives expr (spec.bare_call start callee (plain_item head.now) (words.state state.old)) result (words.state state.new) }
{
    if !head.takes.is_empty() {
        return Err(CheckFault::At(Cause::WrongCount, start));
    }
    let words = fields_size(head.gives.as_slice())?;
    state.spend(words)?;
    Ok(call_of(alloc, callee, words)?)
}

/// A call that stands as a statement, which begins at `start`; `last` is the place of the last name.
#[tactic(auto, unfolding(check_rules::specs::Reached::performed))]
pub fn performed(
    alloc: Global,
    state: &mut State,
    start: Place,
    last: Place,
    r: Reached,
) -> Result<TypedExpr, CheckFault>
    ensures { Gives expr (spec.performed start last (view.reached r) (words.state state.old)) result (words.state state.new) }
{
    match r {
        Reached::Results(value, head) => {
            head.let_go();
            Ok(value)
        }
        Reached::Named(Meaning::Procedure(callee, head)) => {
            let made = bare_call(alloc, state, start, callee, head.get());
            head.let_go();
            made
        }
        other => {
            other.let_go();
            Err(CheckFault::At(Cause::TypeMismatch, last))
        }
    }
}

/// A name that is read, into which is stored, or which is called by a statement.
#[derive(Clone, Copy)]
pub enum Use {
    Read,
    Store,
    Perform,
}

/// Whether brackets behind what was reached fit the use: into an array's element may be stored, a procedure may be called.
pub fn may_apply(way: Use, r: &Reached) -> bool
    ensures { result ≡ spec.may_apply (view.way way) (view.reached r.now) }
{
    match (way, r) {
        (Use::Read, _) => true,
        (Use::Store, Reached::Variable(_, _, kind)) => array_parts(kind).is_some(),
        (Use::Perform, Reached::Named(Meaning::Procedure(_, _))) => true,
        _ => false,
    }
}

/// What a constructor of a type is made of.
#[derive(Clone, Copy)]
pub enum Shape<'a> {
    OfFields(&'a [FieldType]),
    OfElements(usize, &'a TypeTree),
    NoShape,
}

#[tactic(auto, unfolding(check_rules::specs::Reached::shape_of))]
pub fn shape_of(kind: &TypeTree) -> Shape<'_>
    ensures { view.shape result ≡ spec.shape_of (plain kind.now) }
{
    match fields(kind) {
        Some(fields) => Shape::OfFields(fields),
        None => match array_parts(kind) {
            Some((index, element)) => Shape::OfElements(elements_of(index), element),
            None => Shape::NoShape,
        },
    }
}
