//! Which operands an operator or a relation takes: words, or numbers of which one is LONG.
ghost use Rattle.std.specs.Prelude.{◌≡◌, option_map};
ghost use Rattle.check_rules.specs.interface_records.specs.PlainTypes.{plain};
ghost use Rattle.check_rules.specs.Operators as spec;
ghost use Rattle.check_values.specs.Views as view;

use crate::long_operators::{LongApplied, LongMeeting, long_arithmetic, meet_long};
use crate::operators::{Applied, Meeting, Sort, related, sort_of, word_operation};
use check_rules::mesa_types::TypeTree;
use check_rules::syntax_trees::syntax;

/// An operator over words, or over LONG numbers.
#[derive(Drop)]
pub enum Application {
    OfWords(Applied),
    OfLongs(LongApplied),
}

/// What an operator is between operands of these sorts, where they fit.
#[tactic(auto, unfolding(check_rules::specs::Operators::operation))]
pub fn operation(
    operator: syntax::Operator,
    left: Sort,
    left_is_literal: bool,
    right: Sort,
    right_is_literal: bool,
) -> Option<Application>
    ensures { option_map view.application result ≡ spec.operation operator (view.sort left) left_is_literal (view.sort right) right_is_literal }
{
    let meeting = meet_long(left, left_is_literal, right, right_is_literal);
    if let Some(applied) = long_arithmetic(operator, meeting) {
        return Some(Application::OfLongs(applied));
    }
    match word_operation(operator, left, left_is_literal, right, right_is_literal) {
        Some(applied) => Some(Application::OfWords(applied)),
        None => None,
    }
}

/// Two operands of a relation or of IN: numbers of which one is LONG, or two of one word.
#[derive(Clone, Copy)]
pub enum Relating {
    Longs(LongMeeting),
    Words(Meeting),
}

/// How two operands of a relation meet, where they are ordinals of one base or numbers.
#[tactic(auto, unfolding(check_rules::specs::Operators::relating))]
pub fn relates(
    left: &TypeTree,
    left_is_literal: bool,
    right: &TypeTree,
    right_is_literal: bool,
) -> Option<Relating>
    ensures { option_map view.relating result ≡ spec.relating (plain left.now) left_is_literal (plain right.now) right_is_literal }
{
    if let Some(meeting) = meet_long(
        sort_of(left),
        left_is_literal,
        sort_of(right),
        right_is_literal,
    ) {
        return Some(Relating::Longs(meeting));
    }
    match related(left, left_is_literal, right, right_is_literal) {
        Some(meeting) => Some(Relating::Words(meeting)),
        None => None,
    }
}
