//! Statements and the configurations that hold them.

ghost use Rattle.std.specs.Prelude.{◌≡◌};
ghost use Rattle.token_cursor.specs.Running.{Reads};
ghost use Rattle.token_cursor.specs.Parsing.{ended};
ghost use Rattle.mesa_lexer.specs.declared.token.Kind.TheVariants as k;
ghost use Rattle.mesa_lexer.specs.declared.word.Word.TheVariants.{EndWord};
ghost use Rattle.mesa_lexer.specs.declared.mark.Mark.TheVariants.{RightBrace};
ghost use Rattle.cmesa_grammar.specs.ReadConfigs.{nested, semicolon};
ghost use Rattle.cmesa_grammar.specs.ReadConfigs as spec;

use crate::begins::{begins_configuration, begins_statement};
use crate::instances::{instance, made, named_instance, recorded};
use crate::lists::listed;
use crate::nesting::{Level, NestedParser};
use crate::syntax::{ConfigStatement, ConfigStatements, Configuration, Heading};
use held_trees::{both, pushed};
use mesa_base::{Identifier, List};
use mesa_lexer::{Mark, Word};
use token_cursor::{Cursor, Stopped};

impl<N: NestedParser> Level<N> {
    /// A statement whose first name and colon were taken.
    #[tactic(auto, using(token_cursor::proofs::Choosing::when_true, token_cursor::proofs::Choosing::when_false), unfolding(crate::specs::ReadConfigs::declared))]
    fn declared(
        &self,
        tokens: &mut Cursor<'_>,
        name: Identifier,
    ) -> Result<ConfigStatement, Stopped>
        requires { N.parse_at self.now.nested self.now.depth }
        ensures { Reads (spec.declared (nested self.now.depth) name tokens.old.rest.now) result tokens.new.rest.now }
    {
        if begins_configuration(tokens) {
            let inner = self
                .nested
                .configuration(self.alloc, tokens, self.depth, name)?;
            return Ok(ConfigStatement::Declare(inner));
        }
        let place = name.place;
        named_instance(self.alloc, tokens, place, List::new(self.alloc), name)
    }

    /// A statement whose first name was taken.
    #[tactic(auto, using(token_cursor::proofs::Choosing::choose_none, token_cursor::proofs::Choosing::choose_some), unfolding(crate::specs::ReadConfigs::from_name))]
    fn from_name(
        &self,
        tokens: &mut Cursor<'_>,
        name: Identifier,
    ) -> Result<ConfigStatement, Stopped>
        requires { N.parse_at self.now.nested self.now.depth }
        ensures { Reads (spec.from_name (nested self.now.depth) name tokens.old.rest.now) result tokens.new.rest.now }
    {
        let place = name.place;
        if let Some(_) = tokens.takes_mark(Mark::Arrow) {
            let records = pushed(List::new(self.alloc), name)?;
            return made(self.alloc, tokens, place, records);
        }
        match tokens.takes_mark(Mark::Colon) {
            Some(_) => self.declared(tokens, name),
            None => instance(self.alloc, tokens, place, List::new(self.alloc), None, name),
        }
    }

    #[tactic(auto, using(token_cursor::proofs::Choosing::choose_none, token_cursor::proofs::Choosing::choose_some), unfolding(crate::specs::ReadConfigs::statement))]
    fn statement(&self, tokens: &mut Cursor<'_>) -> Result<ConfigStatement, Stopped>
        requires { N.parse_at self.now.nested self.now.depth }
        ensures { Reads (spec.statement (nested self.now.depth) tokens.old.rest.now) result tokens.new.rest.now }
    {
        if let Some(place) = tokens.takes_mark(Mark::LeftBracket) {
            return recorded(self.alloc, tokens, place);
        }
        match tokens.takes_name(self.alloc)? {
            Some(name) => self.from_name(tokens, name),
            None => Err(Stopped::Unexpected),
        }
    }

    /// Further statements behind these; one more semicolon may end them.
    #[tactic(auto, using(token_cursor::proofs::Taking::ended_by, crate::proofs::Steps::statements_eats))]
    fn more_statements(
        &self,
        tokens: &mut Cursor<'_>,
        mut all: ConfigStatements,
    ) -> Result<ConfigStatements, Stopped>
        requires { N.parse_at self.now.nested self.now.depth }
        ensures { Reads (ended semicolon spec.begins_statement (spec.statements_step (nested self.now.depth)) all tokens.old.rest.now) result tokens.new.rest.now }
    {
        'statements: while tokens.takes_mark(Mark::Semicolon).is_some() {
            if !begins_statement(tokens) {
                break;
            }
            let (held, next) = both(all, self.statement(tokens))?;
            all = pushed(held, next)?;
        }
        Ok(all)
    }

    #[tactic(auto, unfolding(crate::specs::ReadConfigs::statements))]
    fn statements(&self, tokens: &mut Cursor<'_>) -> Result<ConfigStatements, Stopped>
        requires { N.parse_at self.now.nested self.now.depth }
        ensures { Reads (spec.statements (nested self.now.depth) tokens.old.rest.now) result tokens.new.rest.now }
    {
        let first = self.statement(tokens)?;
        let all = pushed(List::new(self.alloc), first)?;
        self.more_statements(tokens, all)
    }

    /// Statements, if there are any.
    #[tactic(auto, using(token_cursor::proofs::Choosing::when_true, token_cursor::proofs::Choosing::when_false), unfolding(crate::specs::ReadConfigs::body))]
    fn body(&self, tokens: &mut Cursor<'_>) -> Result<ConfigStatements, Stopped>
        requires { N.parse_at self.now.nested self.now.depth }
        ensures { Reads (spec.body (nested self.now.depth) tokens.old.rest.now) result tokens.new.rest.now }
    {
        if !begins_statement(tokens) {
            return Ok(List::new(self.alloc));
        }
        self.statements(tokens)
    }

    /// Statements behind BEGIN, and END.
    #[tactic(auto, unfolding(crate::specs::ReadConfigs::closed))]
    fn to_word(&self, tokens: &mut Cursor<'_>) -> Result<ConfigStatements, Stopped>
        requires { N.parse_at self.now.nested self.now.depth }
        ensures { Reads (spec.closed (nested self.now.depth) (k.Word EndWord) tokens.old.rest.now) result tokens.new.rest.now }
    {
        let all = self.body(tokens)?;
        let (all, _) = both(all, tokens.need_word(Word::EndWord))?;
        Ok(all)
    }

    /// Statements behind a brace, and the other brace.
    #[tactic(auto, unfolding(crate::specs::ReadConfigs::closed))]
    fn to_brace(&self, tokens: &mut Cursor<'_>) -> Result<ConfigStatements, Stopped>
        requires { N.parse_at self.now.nested self.now.depth }
        ensures { Reads (spec.closed (nested self.now.depth) (k.Mark RightBrace) tokens.old.rest.now) result tokens.new.rest.now }
    {
        let all = self.body(tokens)?;
        let (all, _) = both(all, tokens.need_mark(Mark::RightBrace))?;
        Ok(all)
    }

    #[tactic(auto, using(token_cursor::proofs::Choosing::choose_none, token_cursor::proofs::Choosing::choose_some), unfolding(crate::specs::ReadConfigs::block))]
    fn block(&self, tokens: &mut Cursor<'_>) -> Result<ConfigStatements, Stopped>
        requires { N.parse_at self.now.nested self.now.depth }
        ensures { Reads (spec.block (nested self.now.depth) tokens.old.rest.now) result tokens.new.rest.now }
    {
        if let Some(_) = tokens.takes_word(Word::BeginWord) {
            return self.to_word(tokens);
        }
        match tokens.takes_mark(Mark::LeftBrace) {
            Some(_) => self.to_brace(tokens),
            None => Err(Stopped::Unexpected),
        }
    }

    /// A configuration of this name, from its word on.
    #[tactic(auto, unfolding(crate::specs::ReadConfigs::configured))]
    pub fn configured(
        &self,
        tokens: &mut Cursor<'_>,
        name: Identifier,
    ) -> Result<Configuration, Stopped>
        requires { N.parse_at self.now.nested self.now.depth }
        ensures { Reads (spec.configured (nested self.now.depth) name tokens.old.rest.now) result tokens.new.rest.now }
    {
        let (name, _) = both(name, tokens.need_word(Word::ConfigurationWord))?;
        let (name, imports) = both(name, listed(self.alloc, tokens, Word::ImportsWord))?;
        let exports = listed(self.alloc, tokens, Word::ExportsWord);
        let (held, exports) = both((name, imports), exports)?;
        let control = listed(self.alloc, tokens, Word::ControlWord);
        let (held, control) = both((held, exports), control)?;
        let (held, _) = both((held, control), tokens.need_mark(Mark::Equal))?;
        let (held, statements) = both(held, self.block(tokens))?;
        let (((name, imports), exports), control) = held;
        let heading = Heading {
            name,
            imports,
            exports,
            control,
        };
        Ok(Configuration {
            heading,
            statements,
        })
    }
}
