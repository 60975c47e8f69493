//! With which tokens a part of a text begins.
ghost use Rattle.std.specs.Prelude.{◌≡◌, [], ◌∷◌};
ghost use Rattle.token_cursor.specs.Parsing.{among, finds};
ghost use Rattle.mesa_lexer.specs.declared.token.Kind.TheVariants as k;
ghost use Rattle.mesa_lexer.specs.declared.mark.Mark.TheVariants as m;
ghost use Rattle.grammar_rules.specs.ReadNested as spec;
ghost use Rattle.token_cursor.specs.Running.{next_is};
ghost use Rattle.grammar_rules.specs.WordsAndMarks.{opening, relating};

use mesa_lexer::{Kind, Mark, Word};
use token_cursor::{Cursor, is_word};

fn type_begins(kind: &Kind) -> bool
    ensures { result ≡ spec.begins_type kind.now }
{
    matches!(
        kind,
        Kind::Name(_)
            | Kind::Word(
                Word::IntegerWord
                    | Word::CardinalWord
                    | Word::LongWord
                    | Word::CharacterWord
                    | Word::BooleanWord
                    | Word::StringWord
                    | Word::ArrayWord
                    | Word::RecordWord
            )
            | Kind::Mark(Mark::LeftBrace | Mark::LeftBracket | Mark::LeftParenthesis)
    )
}

fn expr_begins(kind: &Kind) -> bool
    ensures { result ≡ spec.begins_expr kind.now }
{
    matches!(
        kind,
        Kind::Name(_)
            | Kind::Number(_)
            | Kind::Char(_)
            | Kind::Text(_)
            | Kind::Word(
                Word::TrueWord
                    | Word::FalseWord
                    | Word::SignalWord
                    | Word::ErrorWord
                    | Word::NotWord
            )
            | Kind::Mark(
                Mark::LeftParenthesis | Mark::LeftBracket | Mark::Plus | Mark::Minus | Mark::Tilde
            )
    )
}

fn stmt_begins(kind: &Kind) -> bool
    ensures { result ≡ spec.begins_stmt kind.now }
{
    matches!(
        kind,
        Kind::Name(_)
            | Kind::Word(
                Word::NullWord
                    | Word::BeginWord
                    | Word::SignalWord
                    | Word::ErrorWord
                    | Word::IfWord
                    | Word::SelectWord
                    | Word::ForWord
                    | Word::ThroughWord
                    | Word::WhileWord
                    | Word::UntilWord
                    | Word::DoWord
                    | Word::ExitWord
                    | Word::LoopWord
                    | Word::GotoWord
                    | Word::GoWord
                    | Word::ReturnWord
                    | Word::ResumeWord
                    | Word::RejectWord
                    | Word::RetryWord
                    | Word::ContinueWord
            )
            | Kind::Mark(Mark::LeftBrace | Mark::LeftBracket)
    )
}

fn is_relating(kind: &Kind) -> bool
    ensures { result ≡ finds relating kind.now }
{
    matches!(
        kind,
        Kind::Mark(
            Mark::Equal | Mark::Sharp | Mark::Less | Mark::AtMost | Mark::Greater | Mark::AtLeast
        )
    )
}

fn test_begins(kind: &Kind) -> bool
    ensures { result ≡ spec.begins_test kind.now }
{
    is_relating(kind) || is_word(kind, Word::InWord) || expr_begins(kind)
}

/// Whether a type begins here.
#[tactic(auto, unfolding(token_cursor::specs::Running::next_is))]
pub fn begins_type(tokens: &Cursor<'_>) -> bool
    ensures { result ≡ next_is spec.begins_type tokens.now.rest.now }
{
    match tokens.peek() {
        Some(token) => type_begins(&token.kind),
        None => false,
    }
}

/// Whether an expression begins here.
#[tactic(auto, unfolding(token_cursor::specs::Running::next_is))]
pub fn begins_expr(tokens: &Cursor<'_>) -> bool
    ensures { result ≡ next_is spec.begins_expr tokens.now.rest.now }
{
    match tokens.peek() {
        Some(token) => expr_begins(&token.kind),
        None => false,
    }
}

/// Whether a statement begins here.
#[tactic(auto, unfolding(token_cursor::specs::Running::next_is))]
pub fn begins_stmt(tokens: &Cursor<'_>) -> bool
    ensures { result ≡ next_is spec.begins_stmt tokens.now.rest.now }
{
    match tokens.peek() {
        Some(token) => stmt_begins(&token.kind),
        None => false,
    }
}

/// Whether an arm of a catch phrase begins here.
#[tactic(auto, unfolding(token_cursor::specs::Running::next_is))]
pub fn begins_arm(tokens: &Cursor<'_>) -> bool
    ensures { result ≡ next_is spec.begins_arm tokens.now.rest.now }
{
    match tokens.peek() {
        Some(token) => matches!(
            token.kind,
            Kind::Name(_) | Kind::Word(Word::AnyWord | Word::UnwindWord)
        ),
        None => false,
    }
}

/// Whether a test of a selection begins here.
#[tactic(auto, unfolding(token_cursor::specs::Running::next_is))]
pub fn begins_test(tokens: &Cursor<'_>) -> bool
    ensures { result ≡ next_is spec.begins_test tokens.now.rest.now }
{
    match tokens.peek() {
        Some(token) => test_begins(&token.kind),
        None => false,
    }
}

/// Whether an end of a loop begins here.
#[tactic(auto, unfolding(token_cursor::specs::Running::next_is))]
pub fn begins_repeat(tokens: &Cursor<'_>) -> bool
    ensures { result ≡ next_is spec.begins_repeat tokens.now.rest.now }
{
    match tokens.peek() {
        Some(token) => matches!(token.kind, Kind::Name(_) | Kind::Word(Word::FinishedWord)),
        None => false,
    }
}

/// Does the name before go on in a declaration?
#[tactic(auto, unfolding(token_cursor::specs::Running::next_is))]
pub fn declares(tokens: &Cursor<'_>) -> bool
    ensures { result ≡ next_is (among (k.Mark m.Comma ∷ k.Mark m.Colon ∷ [])) tokens.now.rest.now }
{
    match tokens.peek() {
        Some(token) => matches!(token.kind, Kind::Mark(Mark::Comma | Mark::Colon)),
        None => false,
    }
}

/// Does an interval begin here?
#[tactic(auto, unfolding(token_cursor::specs::Running::next_is))]
pub fn begins_interval(tokens: &Cursor<'_>) -> bool
    ensures { result ≡ next_is (finds opening) tokens.now.rest.now }
{
    match tokens.peek() {
        Some(token) => matches!(
            token.kind,
            Kind::Mark(Mark::LeftBracket | Mark::LeftParenthesis)
        ),
        None => false,
    }
}
