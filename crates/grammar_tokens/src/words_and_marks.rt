//! Words and marks that stand for one another or say something.
ghost use Rattle.std.specs.Prelude.{◌≡◌};
ghost use Rattle.grammar_rules.specs.ReadExpressions.{suffixing};
ghost use Rattle.token_cursor.specs.Running.{alone, behind, taken};
ghost use Rattle.grammar_rules.specs.WordsAndMarks as spec;

use mesa_base::{Place, Relation};
use mesa_lexer::{Kind, Mark, Word};
use syntax_trees::syntax::{Access, Operator, Sign};
use token_cursor::Cursor;

/// Takes OR.
#[tactic(auto, unfolding(token_cursor::specs::Running::taken, token_cursor::specs::Running::behind))]
pub fn takes_disjoining(tokens: &mut Cursor<'_>) -> Option<(Operator, Place)>
    ensures found { taken spec.disjoining tokens.old.rest.now ≡ result }
    ensures rest { tokens.new.rest.now ≡ behind spec.disjoining tokens.old.rest.now }
{
    let token = tokens.peek()?;
    let operator = match token.kind {
        Kind::Word(Word::OrWord) => Operator::Or,
        _ => return None,
    };
    tokens.skip();
    Some((operator, token.place))
}

/// Takes AND.
#[tactic(auto, unfolding(token_cursor::specs::Running::taken, token_cursor::specs::Running::behind))]
pub fn takes_conjoining(tokens: &mut Cursor<'_>) -> Option<(Operator, Place)>
    ensures found { taken spec.conjoining tokens.old.rest.now ≡ result }
    ensures rest { tokens.new.rest.now ≡ behind spec.conjoining tokens.old.rest.now }
{
    let token = tokens.peek()?;
    let operator = match token.kind {
        Kind::Word(Word::AndWord) => Operator::And,
        _ => return None,
    };
    tokens.skip();
    Some((operator, token.place))
}

/// Takes `+` or `-` between two terms.
#[tactic(auto, unfolding(token_cursor::specs::Running::taken, token_cursor::specs::Running::behind))]
pub fn takes_adding(tokens: &mut Cursor<'_>) -> Option<(Operator, Place)>
    ensures found { taken spec.adding tokens.old.rest.now ≡ result }
    ensures rest { tokens.new.rest.now ≡ behind spec.adding tokens.old.rest.now }
{
    let token = tokens.peek()?;
    let operator = match token.kind {
        Kind::Mark(Mark::Plus) => Operator::Add,
        Kind::Mark(Mark::Minus) => Operator::Subtract,
        _ => return None,
    };
    tokens.skip();
    Some((operator, token.place))
}

/// Takes `*`, `/` or MOD.
#[tactic(auto, unfolding(token_cursor::specs::Running::taken, token_cursor::specs::Running::behind))]
pub fn takes_multiplying(tokens: &mut Cursor<'_>) -> Option<(Operator, Place)>
    ensures found { taken spec.multiplying tokens.old.rest.now ≡ result }
    ensures rest { tokens.new.rest.now ≡ behind spec.multiplying tokens.old.rest.now }
{
    let token = tokens.peek()?;
    let operator = match token.kind {
        Kind::Mark(Mark::Star) => Operator::Multiply,
        Kind::Mark(Mark::Slash) => Operator::Divide,
        Kind::Word(Word::ModWord) => Operator::Modulo,
        _ => return None,
    };
    tokens.skip();
    Some((operator, token.place))
}

/// Takes the sign of a term.
#[tactic(auto, unfolding(token_cursor::specs::Running::taken, token_cursor::specs::Running::behind))]
pub fn takes_signing(tokens: &mut Cursor<'_>) -> Option<(Sign, Place)>
    ensures found { taken spec.signing tokens.old.rest.now ≡ result }
    ensures rest { tokens.new.rest.now ≡ behind spec.signing tokens.old.rest.now }
{
    let token = tokens.peek()?;
    let sign = match token.kind {
        Kind::Mark(Mark::Plus) => Sign::Positive,
        Kind::Mark(Mark::Minus) => Sign::Negative,
        _ => return None,
    };
    tokens.skip();
    Some((sign, token.place))
}

/// Takes the mark of a comparison.
#[tactic(auto, unfolding(token_cursor::specs::Running::taken, token_cursor::specs::Running::behind))]
pub fn takes_relating(tokens: &mut Cursor<'_>) -> Option<(Relation, Place)>
    ensures found { taken spec.relating tokens.old.rest.now ≡ result }
    ensures rest { tokens.new.rest.now ≡ behind spec.relating tokens.old.rest.now }
{
    let token = tokens.peek()?;
    let relation = match token.kind {
        Kind::Mark(Mark::Equal) => Relation::Equal,
        Kind::Mark(Mark::Sharp) => Relation::NotEqual,
        Kind::Mark(Mark::Less) => Relation::Less,
        Kind::Mark(Mark::AtMost) => Relation::AtMost,
        Kind::Mark(Mark::Greater) => Relation::Greater,
        Kind::Mark(Mark::AtLeast) => Relation::AtLeast,
        _ => return None,
    };
    tokens.skip();
    Some((relation, token.place))
}

/// Takes NOT or `~`.
#[tactic(auto, unfolding(token_cursor::specs::Running::taken, token_cursor::specs::Running::behind))]
pub fn takes_negating(tokens: &mut Cursor<'_>) -> Option<Place>
    ensures found { taken spec.negating tokens.old.rest.now ≡ alone result }
    ensures rest { tokens.new.rest.now ≡ behind spec.negating tokens.old.rest.now }
{
    let token = tokens.peek()?;
    if !matches!(
        token.kind,
        Kind::Mark(Mark::Tilde) | Kind::Word(Word::NotWord)
    ) {
        return None;
    }
    tokens.skip();
    Some(token.place)
}

/// Takes the bracket before an interval, and tells whether that end is open.
#[tactic(auto, unfolding(token_cursor::specs::Running::taken, token_cursor::specs::Running::behind))]
pub fn takes_opening(tokens: &mut Cursor<'_>) -> Option<(bool, Place)>
    ensures found { taken spec.opening tokens.old.rest.now ≡ result }
    ensures rest { tokens.new.rest.now ≡ behind spec.opening tokens.old.rest.now }
{
    let token = tokens.peek()?;
    let is_open = match token.kind {
        Kind::Mark(Mark::LeftBracket) => false,
        Kind::Mark(Mark::LeftParenthesis) => true,
        _ => return None,
    };
    tokens.skip();
    Some((is_open, token.place))
}

/// Takes the bracket behind an interval, and tells whether that end is open.
#[tactic(auto, unfolding(token_cursor::specs::Running::taken, token_cursor::specs::Running::behind))]
pub fn takes_closing(tokens: &mut Cursor<'_>) -> Option<(bool, Place)>
    ensures found { taken spec.closing tokens.old.rest.now ≡ result }
    ensures rest { tokens.new.rest.now ≡ behind spec.closing tokens.old.rest.now }
{
    let token = tokens.peek()?;
    let is_open = match token.kind {
        Kind::Mark(Mark::RightBracket) => false,
        Kind::Mark(Mark::RightParenthesis) => true,
        _ => return None,
    };
    tokens.skip();
    Some((is_open, token.place))
}

/// Takes what begins a suffix, and tells whether it is a bracket and not a dot.
#[tactic(auto, unfolding(token_cursor::specs::Running::taken, token_cursor::specs::Running::behind))]
pub fn takes_suffixing(tokens: &mut Cursor<'_>) -> Option<(bool, Place)>
    ensures found { taken suffixing tokens.old.rest.now ≡ result }
    ensures rest { tokens.new.rest.now ≡ behind suffixing tokens.old.rest.now }
{
    let token = tokens.peek()?;
    let is_bracket = match token.kind {
        Kind::Mark(Mark::Dot) => false,
        Kind::Mark(Mark::LeftBracket) => true,
        _ => return None,
    };
    tokens.skip();
    Some((is_bracket, token.place))
}

/// Takes PROC or PROCEDURE.
#[tactic(auto, unfolding(token_cursor::specs::Running::taken, token_cursor::specs::Running::behind))]
pub fn takes_procedure_word(tokens: &mut Cursor<'_>) -> Option<Place>
    ensures found { taken spec.procedure_word tokens.old.rest.now ≡ alone result }
    ensures rest { tokens.new.rest.now ≡ behind spec.procedure_word tokens.old.rest.now }
{
    let token = tokens.peek()?;
    if !matches!(
        token.kind,
        Kind::Word(Word::ProcWord) | Kind::Word(Word::ProcedureWord)
    ) {
        return None;
    }
    tokens.skip();
    Some(token.place)
}

/// Takes PUBLIC or PRIVATE.
#[tactic(auto, unfolding(token_cursor::specs::Running::taken, token_cursor::specs::Running::behind))]
pub fn takes_accessing(tokens: &mut Cursor<'_>) -> Option<(Access, Place)>
    ensures found { taken spec.accessing tokens.old.rest.now ≡ result }
    ensures rest { tokens.new.rest.now ≡ behind spec.accessing tokens.old.rest.now }
{
    let token = tokens.peek()?;
    let access = match token.kind {
        Kind::Word(Word::PublicWord) => Access::Public,
        Kind::Word(Word::PrivateWord) => Access::Private,
        _ => return None,
    };
    tokens.skip();
    Some((access, token.place))
}
