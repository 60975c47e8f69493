//! Heads of procedures and signals, and what a declaration declares.

ghost use Rattle.std.specs.Prelude.{◌≡◌};
ghost use Rattle.token_cursor.specs.Running.{Reads};
ghost use Rattle.grammar_rules.specs.ReadStatements.{nested};
ghost use Rattle.grammar_rules.specs.ReadModules as spec;

use crate::nesting::Grammar;
use grammar_statements::BlockEnd;
use grammar_statements::grammar_expressions::NestedParsers;
use grammar_statements::grammar_tokens::words_and_marks::takes_procedure_word;
use held_trees::both;
use mesa_lexer::{Mark, Word};
use syntax_trees::syntax::{Block, Declared, FieldList, Head};
use token_cursor::{Cursor, Stopped};

impl<N: NestedParsers> Grammar<N> {
    /// Parameters behind their bracket.
    #[tactic(auto, using(token_cursor::proofs::Choosing::choose_none, token_cursor::proofs::Choosing::choose_some), unfolding(grammar_rules::specs::ReadModules::in_params))]
    fn in_params(&self, tokens: &mut Cursor<'_>) -> Result<Option<FieldList>, Stopped>
        requires { N.parse_at self.now.statements.level.nested self.now.statements.level.depth }
        ensures { Reads (spec.in_params (nested self.now.statements.level.depth) tokens.old.rest.now) result tokens.new.rest.now }
    {
        match tokens.takes_mark(Mark::RightBracket) {
            Some(_) => Ok(None),
            None => {
                let fields = self.statements.level.field_list(tokens)?;
                let (fields, _) = both(fields, tokens.need_mark(Mark::RightBracket))?;
                Ok(Some(fields))
            }
        }
    }

    #[tactic(auto, using(token_cursor::proofs::Choosing::choose_none, token_cursor::proofs::Choosing::choose_some), unfolding(grammar_rules::specs::ReadModules::params))]
    pub fn params(&self, tokens: &mut Cursor<'_>) -> Result<Option<FieldList>, Stopped>
        requires { N.parse_at self.now.statements.level.nested self.now.statements.level.depth }
        ensures { Reads (spec.params (nested self.now.statements.level.depth) tokens.old.rest.now) result tokens.new.rest.now }
    {
        match tokens.takes_mark(Mark::LeftBracket) {
            Some(_) => self.in_params(tokens),
            None => Ok(None),
        }
    }

    #[tactic(auto, using(token_cursor::proofs::Choosing::choose_none, token_cursor::proofs::Choosing::choose_some), unfolding(grammar_rules::specs::ReadModules::returns))]
    fn results(&self, tokens: &mut Cursor<'_>) -> Result<Option<FieldList>, Stopped>
        requires { N.parse_at self.now.statements.level.nested self.now.statements.level.depth }
        ensures { Reads (spec.returns (nested self.now.statements.level.depth) tokens.old.rest.now) result tokens.new.rest.now }
    {
        match tokens.takes_word(Word::ReturnsWord) {
            Some(_) => {
                tokens.need_mark(Mark::LeftBracket)?;
                self.in_params(tokens)
            }
            None => Ok(None),
        }
    }

    #[tactic(auto, unfolding(grammar_rules::specs::ReadModules::head))]
    pub fn head(&self, tokens: &mut Cursor<'_>) -> Result<Head, Stopped>
        requires { N.parse_at self.now.statements.level.nested self.now.statements.level.depth }
        ensures { Reads (spec.head (nested self.now.statements.level.depth) tokens.old.rest.now) result tokens.new.rest.now }
    {
        let takes = self.params(tokens)?;
        let (takes, gives) = both(takes, self.results(tokens))?;
        Ok(Head { takes, gives })
    }

    #[tactic(auto, using(token_cursor::proofs::Choosing::choose_none, token_cursor::proofs::Choosing::choose_some), unfolding(grammar_rules::specs::ReadModules::block))]
    fn any_block(&self, tokens: &mut Cursor<'_>) -> Result<Block, Stopped>
        requires { N.parse_at self.now.statements.level.nested self.now.statements.level.depth }
        ensures { Reads (spec.block (nested self.now.statements.level.depth) tokens.old.rest.now) result tokens.new.rest.now }
    {
        if let Some(place) = tokens.takes_word(Word::BeginWord) {
            return self.statements.block(tokens, BlockEnd::ByWord, place);
        }
        match tokens.takes_mark(Mark::LeftBrace) {
            Some(place) => self.statements.block(tokens, BlockEnd::ByBrace, place),
            None => Err(Stopped::Unexpected),
        }
    }

    #[tactic(auto, unfolding(grammar_rules::specs::ReadModules::procedure))]
    fn procedure(&self, tokens: &mut Cursor<'_>) -> Result<Declared, Stopped>
        requires { N.parse_at self.now.statements.level.nested self.now.statements.level.depth }
        ensures { Reads (spec.procedure (nested self.now.statements.level.depth) tokens.old.rest.now) result tokens.new.rest.now }
    {
        let head = self.head(tokens)?;
        let (head, _) = both(head, tokens.need_mark(Mark::Equal))?;
        let (head, body) = both(head, self.any_block(tokens))?;
        Ok(Declared::Procedure(head, body))
    }

    #[tactic(auto, unfolding(grammar_rules::specs::ReadModules::signal))]
    fn signal(&self, tokens: &mut Cursor<'_>) -> Result<Declared, Stopped>
        requires { N.parse_at self.now.statements.level.nested self.now.statements.level.depth }
        ensures { Reads (spec.signal (nested self.now.statements.level.depth) tokens.old.rest.now) result tokens.new.rest.now }
    {
        let head = self.head(tokens)?;
        let (head, _) = both(head, tokens.need_mark(Mark::Equal))?;
        let (head, _) = both(head, tokens.need_word(Word::CodeWord))?;
        Ok(Declared::Signal(head))
    }

    #[tactic(auto, unfolding(grammar_rules::specs::ReadModules::error))]
    fn error(&self, tokens: &mut Cursor<'_>) -> Result<Declared, Stopped>
        requires { N.parse_at self.now.statements.level.nested self.now.statements.level.depth }
        ensures { Reads (spec.error (nested self.now.statements.level.depth) tokens.old.rest.now) result tokens.new.rest.now }
    {
        let takes = self.params(tokens)?;
        let (takes, _) = both(takes, tokens.need_mark(Mark::Equal))?;
        let (takes, _) = both(takes, tokens.need_word(Word::CodeWord))?;
        Ok(Declared::Error(takes))
    }

    #[tactic(auto, using(token_cursor::proofs::Choosing::choose_none, token_cursor::proofs::Choosing::choose_some), unfolding(grammar_rules::specs::ReadModules::declared))]
    pub fn declared(&self, tokens: &mut Cursor<'_>) -> Result<Declared, Stopped>
        requires { N.parse_at self.now.statements.level.nested self.now.statements.level.depth }
        ensures { Reads (spec.declared (nested self.now.statements.level.depth) tokens.old.rest.now) result tokens.new.rest.now }
    {
        if let Some(_) = takes_procedure_word(tokens) {
            return self.procedure(tokens);
        }
        if let Some(_) = tokens.takes_word(Word::SignalWord) {
            return self.signal(tokens);
        }
        match tokens.takes_word(Word::ErrorWord) {
            Some(_) => self.error(tokens),
            None => {
                let plain = self.statements.plain(tokens)?;
                Ok(Declared::Data(plain))
            }
        }
    }
}
