//! The law that a text has either a list of tokens or a lexical fault.
ghost use Rattle.std.specs.Prelude.{ℕ, List};
ghost use Rattle.mesa_lexer.specs.Answer.{HasOneAnswer};

/// A text has exactly one of a list of tokens and a lexical fault.
pub fn one_answer()
    ensures { (text : List ℕ) → HasOneAnswer text }
{}
