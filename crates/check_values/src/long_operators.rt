//! Which operands an operation over LONG numbers takes, and what makes them LONG.
ghost use Rattle.std.specs.Prelude.{◌≡◌, option_map, IfOk};
ghost use Rattle.check_rules.specs.mesa_types.specs.Plain.{expr};
ghost use Rattle.check_rules.specs.interface_records.specs.PlainTypes.{plain};
ghost use Rattle.check_rules.specs.Operators as spec;
ghost use Rattle.check_values.specs.Views as view;

use crate::conversions::{crossing, made_by};
use crate::operators::Sort;
use check_rules::mesa_base::{OutOfMemory, Place};
use check_rules::mesa_types::{Base, Conversion, Operator, TypeTree, TypedExpr};
use check_rules::syntax_trees::syntax;
use std::alloc::Global;

/// What makes an operand of a LONG operation LONG: as a literal it takes the operation's type, else it is converted.
#[derive(Clone, Copy)]
pub enum Fit {
    AsLiteral,
    By(Conversion),
}

/// Two numbers that meet in a LONG operation: how both are read, and what makes the two LONG.
#[derive(Clone, Copy)]
pub struct LongMeeting {
    pub base: Base,
    pub left: Fit,
    pub right: Fit,
}

/// An operator between two LONG numbers, with what makes the operands LONG and the type that it gives.
#[derive(Drop)]
pub struct LongApplied {
    pub left: Fit,
    pub operator: Operator,
    pub right: Fit,
    pub kind: TypeTree,
}

fn either_signed(left: Base, right: Base) -> Base
    ensures { result ≡ spec.either_signed left right }
{
    match left {
        Base::Signed => Base::Signed,
        Base::Unsigned => match right {
            Base::Signed => Base::Signed,
            Base::Unsigned => Base::Unsigned,
        },
    }
}

/// How two LONG numbers are read: a literal of LONG INTEGER takes the type of a LONG CARDINAL.
#[tactic(auto, using(crate::proofs::LongForms::longs_of_one_base))]
fn long_base_of_longs(
    left: Base,
    left_is_literal: bool,
    right: Base,
    right_is_literal: bool,
) -> Base
    ensures { Some result ≡ spec.long_base (spec.LongNumber left) left_is_literal (spec.LongNumber right) right_is_literal }
{
    match (left, right) {
        (Base::Signed, Base::Signed) => Base::Signed,
        (Base::Unsigned, Base::Unsigned) => Base::Unsigned,
        (Base::Signed, Base::Unsigned) => {
            if left_is_literal {
                Base::Unsigned
            } else {
                Base::Signed
            }
        }
        (Base::Unsigned, Base::Signed) => {
            if right_is_literal {
                Base::Unsigned
            } else {
                Base::Signed
            }
        }
    }
}

/// How the numbers of an operation are read of which one operand is LONG.
#[tactic(auto, using(crate::proofs::LongForms::without_longs))]
fn long_base(left: Sort, left_is_literal: bool, right: Sort, right_is_literal: bool) -> Option<Base>
    ensures { result ≡ spec.long_base (view.sort left) left_is_literal (view.sort right) right_is_literal }
{
    match (left, right) {
        (Sort::Number(a), Sort::LongNumber(b)) => {
            if left_is_literal {
                Some(b)
            } else {
                Some(either_signed(a, b))
            }
        }
        (Sort::LongNumber(a), Sort::Number(b)) => {
            if right_is_literal {
                Some(a)
            } else {
                Some(either_signed(a, b))
            }
        }
        (Sort::LongNumber(a), Sort::LongNumber(b)) => {
            Some(long_base_of_longs(a, left_is_literal, b, right_is_literal))
        }
        _ => None,
    }
}

/// A LONG INTEGER literal is one of LONG CARDINAL without a check.
fn crossing_of(is_literal: bool, from: Base, to: Base) -> Conversion
    ensures { result ≡ spec.crossing_of is_literal from to }
{
    if is_literal {
        Conversion::Kept
    } else {
        crossing(from, to)
    }
}

/// What makes an operand LONG, for an operation of this base.
fn fit_of(to: Base, of: Sort, is_literal: bool) -> Fit
    ensures { view.fit result ≡ spec.fit_of to (view.sort of) is_literal }
{
    match of {
        Sort::Number(base) => {
            if is_literal {
                Fit::AsLiteral
            } else {
                Fit::By(Conversion::Widened(base, to))
            }
        }
        Sort::LongNumber(base) => Fit::By(crossing_of(is_literal, base, to)),
        Sort::Letter | Sort::Truth | Sort::Other => Fit::By(Conversion::Kept),
    }
}

/// How two operands meet of which one is LONG, where both are numbers.
#[tactic(auto, unfolding(check_rules::specs::Operators::meet_long))]
pub fn meet_long(
    left: Sort,
    left_is_literal: bool,
    right: Sort,
    right_is_literal: bool,
) -> Option<LongMeeting>
    ensures { option_map view.long_meeting result ≡ spec.meet_long (view.sort left) left_is_literal (view.sort right) right_is_literal }
{
    match long_base(left, left_is_literal, right, right_is_literal) {
        Some(base) => Some(LongMeeting {
            base,
            left: fit_of(base, left, left_is_literal),
            right: fit_of(base, right, right_is_literal),
        }),
        None => None,
    }
}

/// A literal of one word as one of two.
fn lengthened(value: TypedExpr) -> TypedExpr
    ensures { expr result ≡ spec.lengthened (expr value) }
{
    match value {
        TypedExpr::Number(word) => TypedExpr::LongNumber(u32::from(word)),
        other => other,
    }
}

/// An operand of a LONG operation, made LONG.
#[tactic(auto, unfolding(check_rules::specs::Operators::fitted))]
pub fn fitted(alloc: Global, fit: Fit, value: TypedExpr) -> Result<TypedExpr, OutOfMemory>
    ensures { IfOk result (λ made. expr made ≡ spec.fitted (view.fit fit) (expr value)) }
{
    match fit {
        Fit::AsLiteral => Ok(lengthened(value)),
        Fit::By(conversion) => made_by(alloc, conversion, value),
    }
}

/// How many words the literals of two operands count more, since they take a LONG type.
#[tactic(auto, using(crate::proofs::LongForms::nothing_longer))]
pub fn longer(left: Sort, left_is_literal: bool, right: Sort, right_is_literal: bool) -> u32
    ensures { result ≡ spec.longer (view.sort left) left_is_literal (view.sort right) right_is_literal }
{
    match (left, right) {
        (Sort::Number(_), Sort::LongNumber(_)) => { if left_is_literal { 1 } else { 0 } }
        (Sort::LongNumber(_), Sort::Number(_)) => { if right_is_literal { 1 } else { 0 } }
        _ => 0,
    }
}

/// What makes the selector of a SELECT LONG for a test: as a literal it is widened too, without a sign.
pub fn selecting(to: Base, of: Sort, is_literal: bool) -> Conversion
    ensures { result ≡ spec.selecting to (view.sort of) is_literal }
{
    match of {
        Sort::Number(base) => {
            if is_literal {
                Conversion::Widened(Base::Unsigned, to)
            } else {
                Conversion::Widened(base, to)
            }
        }
        Sort::LongNumber(base) => crossing_of(is_literal, base, to),
        Sort::Letter | Sort::Truth | Sort::Other => Conversion::Kept,
    }
}

/// What makes a number of IN LONG: a word is widened by its own base.
pub fn by_itself(of: Sort, is_literal: bool) -> Fit
    ensures { view.fit result ≡ spec.by_itself (view.sort of) is_literal }
{
    match of {
        Sort::Number(base) => {
            if is_literal {
                Fit::AsLiteral
            } else {
                Fit::By(Conversion::Widened(base, base))
            }
        }
        Sort::LongNumber(_) | Sort::Letter | Sort::Truth | Sort::Other => {
            Fit::By(Conversion::Kept)
        }
    }
}

/// The same of a selector.
pub fn selecting_itself(of: Sort) -> Conversion
    ensures { result ≡ spec.selecting_itself (view.sort of) }
{
    match of {
        Sort::Number(base) => Conversion::Widened(base, base),
        Sort::LongNumber(_) | Sort::Letter | Sort::Truth | Sort::Other => Conversion::Kept,
    }
}

/// Where operands do not fit: at the operator, or at a LONG value that stands beside a character.
#[tactic(auto, unfolding(check_rules::specs::Operators::beside))]
pub fn beside(operator: Place, left: Place, of_left: Sort, right: Place, of_right: Sort) -> Place
    ensures { result ≡ spec.beside operator left (view.sort of_left) right (view.sort of_right) }
{
    match (of_left, of_right) {
        (Sort::LongNumber(_), Sort::Letter) => left,
        (Sort::Letter, Sort::LongNumber(_)) => right,
        _ => operator,
    }
}

/// The LONG type of numbers that are read so.
#[tactic(auto, using(check_state::proofs::TypeForms::type_forms))]
pub fn long_type(base: Base) -> TypeTree
    ensures { plain result ≡ spec.long_type base }
{
    match base {
        Base::Signed => TypeTree::LongInteger,
        Base::Unsigned => TypeTree::LongCardinal,
    }
}

fn on_longs(operator: Operator, meeting: LongMeeting) -> Option<LongApplied>
    ensures { option_map view.long_applied result ≡ spec.on_longs operator (view.long_meeting meeting) }
{
    Some(LongApplied {
        left: meeting.left,
        operator,
        right: meeting.right,
        kind: long_type(meeting.base),
    })
}

/// What an operator is between two numbers that meet in a LONG operation.
pub fn long_arithmetic(
    operator: syntax::Operator,
    meeting: Option<LongMeeting>,
) -> Option<LongApplied>
    ensures { option_map view.long_applied result ≡ spec.long_arithmetic operator (option_map view.long_meeting meeting) }
{
    match operator {
        syntax::Operator::Add => on_longs(Operator::Add, meeting?),
        syntax::Operator::Subtract => on_longs(Operator::Subtract, meeting?),
        syntax::Operator::Multiply => on_longs(Operator::Multiply, meeting?),
        syntax::Operator::Divide => {
            let meeting = meeting?;
            on_longs(Operator::Divide(meeting.base), meeting)
        }
        syntax::Operator::Modulo => {
            let meeting = meeting?;
            on_longs(Operator::Modulo(meeting.base), meeting)
        }
        syntax::Operator::Or | syntax::Operator::And => None,
    }
}
