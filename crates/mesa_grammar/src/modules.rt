//! A whole text.

ghost use Rattle.std.specs.Prelude.{◌≡◌};
ghost use Rattle.token_cursor.specs.Running.{Reads};
ghost use Rattle.grammar_rules.specs.ReadStatements.{nested};
ghost use Rattle.grammar_rules.specs.ReadModules as spec;

use crate::directory::{interfaces, listed, opened};
use crate::nesting::Grammar;
use grammar_statements::grammar_expressions::NestedParsers;
use held_trees::both;
use mesa_base::Place;
use mesa_lexer::{Mark, Word};
use syntax_trees::syntax::{Module, ModuleKind};
use token_cursor::naming::named;
use token_cursor::{Cursor, Stopped};

impl<N: NestedParsers> Grammar<N> {
    /// A program behind its word.
    #[tactic(auto, unfolding(grammar_rules::specs::ReadModules::program))]
    fn program(&self, tokens: &mut Cursor<'_>, place: Place) -> Result<ModuleKind, Stopped>
        requires { N.parse_at self.now.statements.level.nested self.now.statements.level.depth }
        ensures { Reads (spec.program (nested self.now.statements.level.depth) place tokens.old.rest.now) result tokens.new.rest.now }
    {
        let imports = listed(self.statements.level.alloc, tokens, Word::ImportsWord)?;
        let exports = listed(self.statements.level.alloc, tokens, Word::ExportsWord);
        let (imports, exports) = both(imports, exports)?;
        let (lists, _) = both((imports, exports), tokens.need_mark(Mark::Equal))?;
        let (lists, _) = both(lists, tokens.need_word(Word::BeginWord))?;
        let (lists, opens) = both(lists, opened(self.statements.level.alloc, tokens))?;
        let (lists, inner) = both((lists, opens), self.inner(tokens))?;
        let ((lists, inner), _) = both((lists, inner), tokens.need_word(Word::EndWord))?;
        let ((imports, exports), opens) = lists;
        Ok(ModuleKind::Program {
            place,
            imports,
            exports,
            opens,
            inner,
        })
    }

    /// An interface behind its word.
    #[tactic(auto, unfolding(grammar_rules::specs::ReadModules::interface))]
    fn interface(&self, tokens: &mut Cursor<'_>, place: Place) -> Result<ModuleKind, Stopped>
        requires { N.parse_at self.now.statements.level.nested self.now.statements.level.depth }
        ensures { Reads (spec.interface (nested self.now.statements.level.depth) place tokens.old.rest.now) result tokens.new.rest.now }
    {
        tokens.need_mark(Mark::Equal)?;
        tokens.need_word(Word::BeginWord)?;
        let opens = opened(self.statements.level.alloc, tokens)?;
        let (opens, definitions) = both(opens, self.definitions(tokens))?;
        let held = both((opens, definitions), tokens.need_word(Word::EndWord))?;
        let ((opens, definitions), _) = held;
        Ok(ModuleKind::Interface {
            place,
            opens,
            definitions,
        })
    }

    #[tactic(auto, using(token_cursor::proofs::Choosing::choose_none, token_cursor::proofs::Choosing::choose_some), unfolding(grammar_rules::specs::ReadModules::kind))]
    fn module_kind(&self, tokens: &mut Cursor<'_>) -> Result<ModuleKind, Stopped>
        requires { N.parse_at self.now.statements.level.nested self.now.statements.level.depth }
        ensures { Reads (spec.kind (nested self.now.statements.level.depth) tokens.old.rest.now) result tokens.new.rest.now }
    {
        if let Some(place) = tokens.takes_word(Word::ProgramWord) {
            return self.program(tokens, place);
        }
        match tokens.takes_word(Word::DefinitionsWord) {
            Some(place) => self.interface(tokens, place),
            None => Err(Stopped::Unexpected),
        }
    }

    #[tactic(auto, unfolding(grammar_rules::specs::ReadModules::module_text))]
    pub fn module_text(&self, tokens: &mut Cursor<'_>) -> Result<Module, Stopped>
        requires { N.parse_at self.now.statements.level.nested self.now.statements.level.depth }
        ensures { Reads (spec.module_text (nested self.now.statements.level.depth) tokens.old.rest.now) result tokens.new.rest.now }
    {
        let directory = interfaces(self.statements.level.alloc, tokens)?;
        let name = named(self.statements.level.alloc, tokens);
        let (directory, name) = both(directory, name)?;
        let (head, _) = both((directory, name), tokens.need_mark(Mark::Colon))?;
        let (head, kind) = both(head, self.module_kind(tokens))?;
        let ((head, kind), _) = both((head, kind), tokens.need_mark(Mark::Dot))?;
        let (directory, name) = head;
        Ok(Module {
            directory,
            name,
            kind,
        })
    }
}
