//! Which production a statement is of.
ghost use Rattle.std.specs.Prelude.{◌≡◌};
ghost use Rattle.grammar_statements.specs.FirstTokens.{production_of};

use mesa_lexer::{Kind, Mark, Word};

/// The productions of statements; Nothing: no statement begins so.
#[derive(Clone, Copy)]
pub enum Production {
    AssignOrCall,
    Extract,
    BlockByBrace,
    BlockByWord,
    If,
    Select,
    GotoInOneWord,
    GotoInTwoWords,
    Return,
    Resume,
    Raise,
    Null,
    ExitLoop,
    NextTurn,
    Reject,
    Retry,
    Continue,
    Loop,
    Nothing,
}

/// The production whose statements begin with a token of this kind.
pub fn begun_by(kind: &Kind) -> Production
    ensures { result ≡ production_of kind.now }
{
    match kind {
        Kind::Name(_) => Production::AssignOrCall,
        Kind::Mark(Mark::LeftBracket) => Production::Extract,
        Kind::Mark(Mark::LeftBrace) => Production::BlockByBrace,
        Kind::Word(Word::BeginWord) => Production::BlockByWord,
        Kind::Word(Word::IfWord) => Production::If,
        Kind::Word(Word::SelectWord) => Production::Select,
        Kind::Word(Word::GotoWord) => Production::GotoInOneWord,
        Kind::Word(Word::GoWord) => Production::GotoInTwoWords,
        Kind::Word(Word::ReturnWord) => Production::Return,
        Kind::Word(Word::ResumeWord) => Production::Resume,
        Kind::Word(Word::SignalWord | Word::ErrorWord) => Production::Raise,
        Kind::Word(Word::NullWord) => Production::Null,
        Kind::Word(Word::ExitWord) => Production::ExitLoop,
        Kind::Word(Word::LoopWord) => Production::NextTurn,
        Kind::Word(Word::RejectWord) => Production::Reject,
        Kind::Word(Word::RetryWord) => Production::Retry,
        Kind::Word(Word::ContinueWord) => Production::Continue,
        Kind::Word(
            Word::ForWord | Word::ThroughWord | Word::WhileWord | Word::UntilWord | Word::DoWord,
        ) => Production::Loop,
        _ => Production::Nothing,
    }
}
