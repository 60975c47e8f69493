//! Which operands an operator takes, and what it then is.
ghost use Rattle.std.specs.Prelude.{◌≡◌, option_map};
ghost use Rattle.std.specs.Option.{option_copied};
ghost use Rattle.check_rules.specs.Operators as spec;
ghost use Rattle.check_rules.specs.interface_records.specs.PlainTypes.{plain};
ghost use Rattle.check_rules.specs.Ranges.{in_common};
ghost use Rattle.check_values.specs.Views as view;

use check_rules::mesa_base::Relation;
use check_rules::mesa_types::{Base, Operator, Range, TypeTree};
use check_rules::syntax_trees::syntax;
use check_state::{base_of, same};

/// What operators see of a type.
#[derive(Clone, Copy)]
pub enum Sort {
    Number(Base),
    LongNumber(Base),
    Letter,
    Truth,
    Other,
}

/// Two operands that meet: how both are read as numbers, and the checks of the two.
#[derive(Clone, Copy)]
pub struct Meeting {
    pub base: Base,
    pub left: Range,
    pub right: Range,
}

/// An operator between two operands, with their checks and the type that it gives.
#[derive(Drop)]
pub struct Applied {
    pub left: Range,
    pub operator: Operator,
    pub right: Range,
    pub kind: TypeTree,
}

#[tactic(auto, using(check_state::proofs::TypeForms::type_forms))]
fn sort_of_base(base: Option<&TypeTree>) -> Sort
    ensures { view.sort result ≡ spec.sort_of_base (option_map plain (option_copied base.entry)) }
{
    match base {
        None => Sort::Other,
        Some(of) => match of {
            TypeTree::Integer => Sort::Number(Base::Signed),
            TypeTree::Cardinal => Sort::Number(Base::Unsigned),
            TypeTree::LongInteger => Sort::LongNumber(Base::Signed),
            TypeTree::LongCardinal => Sort::LongNumber(Base::Unsigned),
            TypeTree::Character => Sort::Letter,
            TypeTree::Boolean => Sort::Truth,
            TypeTree::String
            | TypeTree::Enumeration(_, _)
            | TypeTree::Subrange(_, _, _)
            | TypeTree::Array(_, _)
            | TypeTree::Record(_, _) => Sort::Other,
        },
    }
}

#[tactic(auto, unfolding(check_rules::specs::Operators::sort_of))]
pub fn sort_of(kind: &TypeTree) -> Sort
    ensures { view.sort result ≡ spec.sort_of (plain kind.now) }
{
    sort_of_base(base_of(kind))
}

/// The numbers that INTEGER and CARDINAL have in common.
pub fn in_common(base: Base) -> Range
    ensures { result ≡ in_common base }
{
    Range::From(base, 0, 32767)
}

/// Two numbers in one operation: a literal takes the other's type; of a mixed operation the CARDINAL is checked.
#[tactic(auto, unfolding(check_rules::specs::Operators::meet))]
pub fn meet(left: Base, left_is_literal: bool, right: Base, right_is_literal: bool) -> Meeting
    ensures { view.meeting result ≡ spec.meet left left_is_literal right right_is_literal }
{
    let (base, left, right) = match (left, right) {
        (Base::Signed, Base::Signed) => (Base::Signed, Range::Every, Range::Every),
        (Base::Unsigned, Base::Unsigned) => (Base::Unsigned, Range::Every, Range::Every),
        (Base::Signed, Base::Unsigned) if left_is_literal => (
            Base::Unsigned,
            Range::Every,
            Range::Every,
        ),
        (Base::Signed, Base::Unsigned) => (Base::Signed, Range::Every, in_common(Base::Unsigned)),
        (Base::Unsigned, Base::Signed) if right_is_literal => (
            Base::Unsigned,
            Range::Every,
            Range::Every,
        ),
        (Base::Unsigned, Base::Signed) => (Base::Signed, in_common(Base::Unsigned), Range::Every),
    };
    Meeting { base, left, right }
}

/// The type of numbers that are read so.
#[tactic(auto, using(check_state::proofs::TypeForms::type_forms))]
pub fn number_type(base: Base) -> TypeTree
    ensures { plain result ≡ spec.number_type base }
{
    match base {
        Base::Signed => TypeTree::Integer,
        Base::Unsigned => TypeTree::Cardinal,
    }
}

fn on_numbers(operator: Operator, meeting: Meeting) -> Option<Applied>
    ensures { option_map view.applied result ≡ spec.on_numbers operator (view.meeting meeting) }
{
    Some(Applied {
        left: meeting.left,
        operator,
        right: meeting.right,
        kind: number_type(meeting.base),
    })
}

fn arithmetic(operator: syntax::Operator, meeting: Meeting) -> Option<Applied>
    ensures { option_map view.applied result ≡ spec.arithmetic operator (view.meeting meeting) }
{
    match operator {
        syntax::Operator::Add => on_numbers(Operator::Add, meeting),
        syntax::Operator::Subtract => on_numbers(Operator::Subtract, meeting),
        syntax::Operator::Multiply => on_numbers(Operator::Multiply, meeting),
        syntax::Operator::Divide => on_numbers(Operator::Divide(meeting.base), meeting),
        syntax::Operator::Modulo => on_numbers(Operator::Modulo(meeting.base), meeting),
        syntax::Operator::Or | syntax::Operator::And => None,
    }
}

fn unchecked(operator: Operator, kind: TypeTree) -> Option<Applied>
    ensures { option_map view.applied result ≡ spec.unchecked operator (plain kind) }
{
    Some(Applied {
        left: Range::Every,
        operator,
        right: Range::Every,
        kind,
    })
}

#[tactic(auto, using(check_state::proofs::TypeForms::type_forms))]
fn on_letter(operator: syntax::Operator, right: Sort) -> Option<Applied>
    ensures { option_map view.applied result ≡ spec.on_letter operator (view.sort right) }
{
    match (operator, right) {
        (syntax::Operator::Add, Sort::Number(base)) => {
            unchecked(Operator::AddToCharacter(base), TypeTree::Character)
        }
        (syntax::Operator::Subtract, Sort::Number(base)) => {
            unchecked(Operator::SubtractFromCharacter(base), TypeTree::Character)
        }
        (syntax::Operator::Subtract, Sort::Letter) => {
            unchecked(Operator::Subtract, TypeTree::Integer)
        }
        _ => None,
    }
}

/// What an operator over words is between operands of these sorts, where they fit.
#[tactic(auto, unfolding(check_rules::specs::Operators::word_operation))]
pub fn word_operation(
    operator: syntax::Operator,
    left: Sort,
    left_is_literal: bool,
    right: Sort,
    right_is_literal: bool,
) -> Option<Applied>
    ensures { option_map view.applied result ≡ spec.word_operation operator (view.sort left) left_is_literal (view.sort right) right_is_literal }
{
    match (left, right) {
        (Sort::Number(left), Sort::Number(right)) => {
            arithmetic(
                operator,
                meet(left, left_is_literal, right, right_is_literal),
            )
        }
        (Sort::Letter, right) => on_letter(operator, right),
        _ => None,
    }
}

fn of_one_base(left: Option<&TypeTree>, right: Option<&TypeTree>) -> Option<Meeting>
    ensures { option_map view.meeting result ≡ spec.of_one_base (option_map plain (option_copied left.entry)) (option_map plain (option_copied right.entry)) }
{
    match (left, right) {
        (Some(left), Some(right)) if same(left, right) => Some(Meeting {
            base: Base::Unsigned,
            left: Range::Every,
            right: Range::Every,
        }),
        _ => None,
    }
}

/// How two operands of a relation meet, where they are ordinals of one base and no LONG numbers.
#[tactic(auto, unfolding(check_rules::specs::Operators::related))]
pub fn related(
    left: &TypeTree,
    left_is_literal: bool,
    right: &TypeTree,
    right_is_literal: bool,
) -> Option<Meeting>
    ensures { option_map view.meeting result ≡ spec.related (plain left.now) left_is_literal (plain right.now) right_is_literal }
{
    match (sort_of(left), sort_of(right)) {
        (Sort::Number(a), Sort::Number(b)) => Some(meet(a, left_is_literal, b, right_is_literal)),
        (Sort::LongNumber(_), _) | (_, Sort::LongNumber(_)) => None,
        _ => of_one_base(base_of(left), base_of(right)),
    }
}

/// The relation, which NOT or ~ before it turns.
pub fn turned(is_negated: bool, relation: Relation) -> Relation
    ensures { result ≡ spec.turned is_negated relation }
{
    if !is_negated {
        return relation;
    }
    match relation {
        Relation::Equal => Relation::NotEqual,
        Relation::NotEqual => Relation::Equal,
        Relation::Less => Relation::AtLeast,
        Relation::AtLeast => Relation::Less,
        Relation::AtMost => Relation::Greater,
        Relation::Greater => Relation::AtMost,
    }
}
