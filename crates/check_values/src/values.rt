//! Values of operators whose operands are checked.
ghost use Rattle.std.specs.Prelude.{◌≡◌, IfOk};
ghost use Rattle.check_rules.specs.mesa_types.specs.Plain.{expr};
ghost use Rattle.check_rules.specs.mesa_types.specs.Typed as t;
ghost use Rattle.check_rules.specs.interface_records.specs.PlainTypes as v;
ghost use Rattle.check_rules.specs.interface_records.specs.PlainTypes.{plain};
ghost use Rattle.check_rules.specs.Operators as operators;
ghost use Rattle.check_rules.specs.Ranges as ranges;
ghost use Rattle.check_rules.specs.Values as spec;
ghost use Rattle.check_state.specs.Gives.{GivesOnly};
ghost use Rattle.check_state.specs.Views.{typed};
ghost use Rattle.check_values.specs.Views as view;

use crate::long_operators::{LongMeeting, beside, fitted, long_type};
use crate::operations::{Relating, relates};
use crate::operators::{Meeting, Sort, number_type, sort_of, turned};
use crate::targets::checked;
use check_rules::held_trees::{LetGo, both, boxed, boxed_pair};
use check_rules::mesa_base::{Boxed, OutOfMemory, Place, Relation};
use check_rules::mesa_types::{Base, TypeTree, TypedExpr};
use check_rules::syntax_trees::syntax;
use check_rules::{Cause, CheckFault};
use check_state::{Gave, Strings, Typed, of_kind};
use std::alloc::Global;

/// The expression of a word.
fn word(n: u16) -> TypedExpr
    ensures { expr result ≡ t.Number n }
{
    TypedExpr::Number(n)
}

/// The expression of a LONG number.
fn long(n: u32) -> TypedExpr
    ensures { expr result ≡ t.LongNumber n }
{
    TypedExpr::LongNumber(n)
}

fn literal(kind: TypeTree, value: TypedExpr) -> Typed
    ensures { typed result ≡ spec.literal_of (plain kind) (expr value) }
{
    Typed {
        value,
        kind,
        literal: true,
        gave: Gave::NotCalled,
    }
}

/// A number literal: INTEGER, CARDINAL, LONG INTEGER or LONG CARDINAL by its size; all but the last may take the type of another
/// operand.
#[tactic(auto, using(check_state::proofs::TypeForms::type_forms, crate::proofs::NumberForms::integer_number, crate::proofs::NumberForms::cardinal_number, crate::proofs::NumberForms::long_integer_number, crate::proofs::NumberForms::long_cardinal_number))]
pub fn number(n: u32) -> Typed
    ensures { typed result ≡ spec.number n }
{
    if n <= 32767 {
        literal(TypeTree::Integer, word(n as u16))
    } else if n <= 65535 {
        literal(TypeTree::Cardinal, word(n as u16))
    } else if n <= 2147483647 {
        literal(TypeTree::LongInteger, long(n))
    } else {
        of_kind(TypeTree::LongCardinal, long(n))
    }
}

#[tactic(auto, using(check_state::proofs::TypeForms::type_forms))]
fn character(value: TypedExpr) -> Typed
    ensures { typed result ≡ ranges.typed v.Character (expr value) }
{
    of_kind(TypeTree::Character, value)
}

/// A character, by its code.
#[tactic(auto, using(crate::proofs::NumberForms::small_letter))]
pub fn letter(code: u8) -> Typed
    ensures { typed result ≡ spec.letter code }
{
    character(word(u16::from(code)))
}

fn text(number: u16) -> TypedExpr
    ensures { expr result ≡ t.Literal number }
{
    TypedExpr::Literal(number)
}

#[tactic(auto, using(check_state::proofs::TypeForms::type_forms))]
fn string_of(value: TypedExpr) -> Typed
    ensures { typed result ≡ ranges.typed v.String (expr value) }
{
    of_kind(TypeTree::String, value)
}

/// A string literal, by its number among those of the module.
#[tactic(auto, unfolding(check_rules::specs::Values::string))]
pub fn string(literals: &Strings, place: Place, bytes: &[u8]) -> Result<Typed, CheckFault>
    ensures { GivesOnly typed (spec.string literals.now place bytes.now) result }
{
    match literals.number(bytes) {
        Some(number) => Ok(string_of(text(number))),
        None => Err(CheckFault::At(Cause::GlobalsTooLarge, place)),
    }
}

#[tactic(auto, using(check_state::proofs::TypeForms::type_forms))]
pub fn truth(value: TypedExpr) -> Typed
    ensures { typed result ≡ spec.truth (expr value) }
{
    of_kind(TypeTree::Boolean, value)
}

#[tactic(auto, unfolding(check_rules::specs::Values::is_truth))]
pub fn is_truth(kind: &TypeTree) -> bool
    ensures { result ≡ spec.is_truth (plain kind.now) }
{
    match sort_of(kind) {
        Sort::Truth => true,
        Sort::Number(_) | Sort::LongNumber(_) | Sort::Letter | Sort::Other => false,
    }
}

#[tactic(auto, unfolding(check_rules::specs::Values::not_of))]
pub fn not_of(alloc: Global, place: Place, a: Typed) -> Result<Typed, CheckFault>
    ensures { GivesOnly typed (spec.not_of place (typed a)) result }
{
    if !is_truth(&a.kind) {
        a.let_go();
        return Err(CheckFault::At(Cause::TypeMismatch, place));
    }
    let inner = boxed(alloc, a.into_value())?;
    Ok(truth(TypedExpr::Not(inner)))
}

#[tactic(auto, unfolding(check_rules::specs::Values::signed))]
pub fn signed(
    alloc: Global,
    sign: syntax::Sign,
    place: Place,
    a: Typed,
) -> Result<Typed, CheckFault>
    ensures { GivesOnly typed (spec.signed sign place (typed a)) result }
{
    let sort = sort_of(&a.kind);
    let value = a.into_value();
    match (sign, sort) {
        (syntax::Sign::Positive, Sort::Number(base)) => Ok(of_kind(number_type(base), value)),
        (syntax::Sign::Negative, Sort::Number(base)) => {
            let inner = boxed(alloc, value)?;
            Ok(of_kind(number_type(base), TypedExpr::Negate(inner)))
        }
        (syntax::Sign::Positive, Sort::LongNumber(base)) => Ok(of_kind(long_type(base), value)),
        (syntax::Sign::Negative, Sort::LongNumber(base)) => {
            let inner = boxed(alloc, value)?;
            Ok(of_kind(long_type(base), TypedExpr::NegateLong(inner)))
        }
        (_, Sort::Letter) | (_, Sort::Truth) | (_, Sort::Other) => {
            value.let_go();
            Err(CheckFault::At(Cause::TypeMismatch, place))
        }
    }
}

fn checked_pair(
    alloc: Global,
    meeting: Meeting,
    left: TypedExpr,
    right: TypedExpr,
) -> Result<(Boxed<TypedExpr>, Boxed<TypedExpr>), OutOfMemory>
    ensures { IfOk result (λ made. (expr made.0 ≡ ranges.checked meeting.left (expr left)) × (expr made.1 ≡ ranges.checked meeting.right (expr right))) }
{
    let (right, left) = both(right, checked(alloc, meeting.left, left))?;
    let (left, right) = both(left, checked(alloc, meeting.right, right))?;
    boxed_pair(alloc, left, right)
}

fn fitted_pair(
    alloc: Global,
    meeting: LongMeeting,
    left: TypedExpr,
    right: TypedExpr,
) -> Result<(Boxed<TypedExpr>, Boxed<TypedExpr>), OutOfMemory>
    ensures { IfOk result (λ made. (expr made.0 ≡ operators.fitted (view.fit meeting.left) (expr left)) × (expr made.1 ≡ operators.fitted (view.fit meeting.right) (expr right))) }
{
    let (right, left) = both(right, fitted(alloc, meeting.left, left))?;
    let (left, right) = both(left, fitted(alloc, meeting.right, right))?;
    boxed_pair(alloc, left, right)
}

fn related_value(
    base: Base,
    relation: Relation,
    left: Boxed<TypedExpr>,
    right: Boxed<TypedExpr>,
) -> Typed
    ensures { typed result ≡ spec.truth (t.Relate base relation (expr left) (expr right)) }
{
    truth(TypedExpr::Relate(base, relation, left, right))
}

fn related_longs(
    base: Base,
    relation: Relation,
    left: Boxed<TypedExpr>,
    right: Boxed<TypedExpr>,
) -> Typed
    ensures { typed result ≡ spec.truth (t.RelateLong base relation (expr left) (expr right)) }
{
    truth(TypedExpr::RelateLong(base, relation, left, right))
}

fn relate(
    alloc: Global,
    relation: Relation,
    left: TypedExpr,
    right: TypedExpr,
    relating: Relating,
) -> Result<Typed, OutOfMemory>
    ensures { IfOk result (λ made. typed made ≡ spec.related_value relation (expr left) (expr right) (view.relating relating)) }
{
    match relating {
        Relating::Words(meeting) => {
            let (left, right) = checked_pair(alloc, meeting, left, right)?;
            Ok(related_value(meeting.base, relation, left, right))
        }
        Relating::Longs(meeting) => {
            let (left, right) = fitted_pair(alloc, meeting, left, right)?;
            Ok(related_longs(meeting.base, relation, left, right))
        }
    }
}

/// A relation between two operands, which begin at `start` and at `other`.
#[tactic(auto, unfolding(check_rules::specs::Values::compared))]
pub fn compared(
    alloc: Global,
    is_negated: bool,
    relation: Relation,
    place: Place,
    start: Place,
    left: Typed,
    other: Place,
    right: Typed,
) -> Result<Typed, CheckFault>
    ensures { GivesOnly typed (spec.compared is_negated relation place start (typed left) other (typed right)) result }
{
    let relating = relates(&left.kind, left.literal, &right.kind, right.literal);
    let fault = beside(
        place,
        start,
        sort_of(&left.kind),
        other,
        sort_of(&right.kind),
    );
    let (left, right) = (left.into_value(), right.into_value());
    match relating {
        None => {
            (left, right).let_go();
            Err(CheckFault::At(Cause::TypeMismatch, fault))
        }
        Some(relating) => Ok(relate(alloc, turned(is_negated, relation), left, right, relating)?),
    }
}

/// An operand of AND or OR, whose left operand fits or does not.
pub fn truth_operand(fits: bool, place: Place, right: Typed) -> Result<TypedExpr, CheckFault>
    ensures { GivesOnly expr (spec.truth_operand fits place (typed right)) result }
{
    let fits = fits && is_truth(&right.kind);
    let value = right.into_value();
    if fits {
        Ok(value)
    } else {
        value.let_go();
        Err(CheckFault::At(Cause::TypeMismatch, place))
    }
}
