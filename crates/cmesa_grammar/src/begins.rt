//! What the next token begins.

ghost use Rattle.std.specs.Prelude.{◌≡◌};
ghost use Rattle.token_cursor.specs.Running.{next_is};
ghost use Rattle.cmesa_grammar.specs.ReadConfigs as spec;

use mesa_lexer::{Kind, Mark, Word};
use token_cursor::{Cursor, is_word};

/// Whether a configuration goes on here, behind its name and colon.
#[tactic(auto, unfolding(token_cursor::specs::Running::next_is))]
pub fn begins_configuration(tokens: &Cursor<'_>) -> bool
    ensures { result ≡ next_is spec.begins_configuration tokens.now.rest.now }
{
    match tokens.peek() {
        Some(token) => is_word(&token.kind, Word::ConfigurationWord),
        None => false,
    }
}

fn statement_begins(kind: &Kind) -> bool
    ensures { result ≡ spec.begins_statement kind.now }
{
    matches!(kind, Kind::Name(_) | Kind::Mark(Mark::LeftBracket))
}

/// Whether a statement begins here.
#[tactic(auto, unfolding(token_cursor::specs::Running::next_is))]
pub fn begins_statement(tokens: &Cursor<'_>) -> bool
    ensures { result ≡ next_is spec.begins_statement tokens.now.rest.now }
{
    match tokens.peek() {
        Some(token) => statement_begins(&token.kind),
        None => false,
    }
}
