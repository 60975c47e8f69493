//! The items of an interface.

ghost use Rattle.std.specs.Prelude.{◌≡◌};
ghost use Rattle.token_cursor.specs.Running.{Reads};
ghost use Rattle.grammar_rules.specs.ReadStatements.{nested};
ghost use Rattle.grammar_rules.specs.ReadModules as spec;
ghost use Rattle.mesa_grammar.specs.ReadItems as items;

use crate::nesting::Grammar;
use grammar_rules::Begun;
use grammar_statements::grammar_expressions::NestedParsers;
use grammar_statements::grammar_tokens::words_and_marks::takes_procedure_word;
use held_trees::{LetGo, both, pushed};
use mesa_base::{Identifier, Identifiers, List};
use mesa_lexer::{Mark, Word};
use syntax_trees::syntax::{Defined, Definitions, Labeled};
use token_cursor::naming::names_from;
use token_cursor::{Cursor, Stopped};

impl<N: NestedParsers> Grammar<N> {
    #[tactic(auto, unfolding(grammar_rules::specs::ReadModules::constant))]
    fn constant(&self, tokens: &mut Cursor<'_>) -> Result<Defined, Stopped>
        requires { N.parse_at self.now.statements.level.nested self.now.statements.level.depth }
        ensures { Reads (spec.constant (nested self.now.statements.level.depth) tokens.old.rest.now) result tokens.new.rest.now }
    {
        let of = self.statements.level.type_exp(tokens, None)?;
        let (of, _) = both(of, tokens.need_mark(Mark::Equal))?;
        let (of, value) = both(of, self.statements.level.expr(tokens, Begun::Fresh))?;
        Ok(Defined::ConstantItem(of, value))
    }

    #[tactic(auto, unfolding(grammar_rules::specs::ReadModules::type_item))]
    fn type_item(&self, tokens: &mut Cursor<'_>) -> Result<Defined, Stopped>
        requires { N.parse_at self.now.statements.level.nested self.now.statements.level.depth }
        ensures { Reads (spec.type_item (nested self.now.statements.level.depth) tokens.old.rest.now) result tokens.new.rest.now }
    {
        tokens.need_mark(Mark::Equal)?;
        let is = self.statements.level.type_exp(tokens, None)?;
        Ok(Defined::TypeItem(is))
    }

    #[tactic(auto, using(token_cursor::proofs::Choosing::choose_none, token_cursor::proofs::Choosing::choose_some), unfolding(grammar_rules::specs::ReadModules::defined))]
    fn defined(&self, tokens: &mut Cursor<'_>) -> Result<Defined, Stopped>
        requires { N.parse_at self.now.statements.level.nested self.now.statements.level.depth }
        ensures { Reads (spec.defined (nested self.now.statements.level.depth) tokens.old.rest.now) result tokens.new.rest.now }
    {
        if let Some(_) = takes_procedure_word(tokens) {
            return Ok(Defined::ProcedureItem(self.head(tokens)?));
        }
        if let Some(_) = tokens.takes_word(Word::SignalWord) {
            return Ok(Defined::SignalItem(self.head(tokens)?));
        }
        if let Some(_) = tokens.takes_word(Word::ErrorWord) {
            return Ok(Defined::ErrorItem(self.params(tokens)?));
        }
        match tokens.takes_word(Word::TypeWord) {
            Some(_) => self.type_item(tokens),
            None => self.constant(tokens),
        }
    }

    /// An item with its names, of which the first was taken.
    #[tactic(auto, unfolding(crate::specs::ReadItems::definition))]
    fn definition(
        &self,
        tokens: &mut Cursor<'_>,
        first: Identifier,
    ) -> Result<Labeled<Identifiers, Defined>, Stopped>
        requires { N.parse_at self.now.statements.level.nested self.now.statements.level.depth }
        ensures { Reads (items.definition (nested self.now.statements.level.depth) first tokens.old.rest.now) result tokens.new.rest.now }
    {
        let labels = names_from(self.statements.level.alloc, tokens, first)?;
        let (labels, _) = both(labels, tokens.need_mark(Mark::Colon))?;
        let (labels, item) = both(labels, self.defined(tokens))?;
        let ((labels, item), _) = both((labels, item), tokens.need_mark(Mark::Semicolon))?;
        Ok(Labeled { labels, item })
    }

    /// These items with one more, whose first name was taken.
    #[tactic(auto, using(crate::proofs::FrontSteps::step_by))]
    fn one_more(
        &self,
        tokens: &mut Cursor<'_>,
        all: Definitions,
        first: Identifier,
    ) -> Result<Definitions, Stopped>
        requires { N.parse_at self.now.statements.level.nested self.now.statements.level.depth }
        ensures { Reads (spec.definitions_step (nested self.now.statements.level.depth) all first.name first.place tokens.old.rest.now) result tokens.new.rest.now }
    {
        let (all, item) = both(all, self.definition(tokens, first))?;
        Ok(pushed(all, item)?)
    }

    #[tactic(auto, using(token_cursor::proofs::Taking::many_by, crate::proofs::FrontSteps::definitions_eats), unfolding(grammar_rules::specs::ReadModules::definitions))]
    pub fn definitions(&self, tokens: &mut Cursor<'_>) -> Result<Definitions, Stopped>
        requires { N.parse_at self.now.statements.level.nested self.now.statements.level.depth }
        ensures { Reads (spec.definitions (nested self.now.statements.level.depth) tokens.old.rest.now) result tokens.new.rest.now }
    {
        let mut all = List::new(self.statements.level.alloc);
        'definitions: loop {
            match tokens.takes_name(self.statements.level.alloc) {
                Ok(Some(first)) => all = self.one_more(tokens, all, first)?,
                Ok(None) => return Ok(all),
                Err(_) => {
                    all.let_go();
                    return Err(Stopped::Memory);
                }
            }
        }
    }
}
