//! The declarations of a program and what stands behind them.

ghost use Rattle.std.specs.Prelude.{◌≡◌};
ghost use Rattle.token_cursor.specs.Running.{Reads};
ghost use Rattle.token_cursor.specs.Parsing.{repeat};
ghost use Rattle.grammar_rules.specs.ReadStatements.{nested};
ghost use Rattle.grammar_rules.specs.ReadModules as spec;
ghost use Rattle.grammar_statements.specs.ReadTurns.{ReadsTurn};

use crate::nesting::Grammar;
use grammar_statements::Turn;
use grammar_statements::grammar_expressions::NestedParsers;
use grammar_statements::grammar_tokens::begins::declares;
use grammar_statements::grammar_tokens::words_and_marks::takes_accessing;
use held_trees::{LetGo, both, pushed};
use mesa_base::{Identifier, List};
use mesa_lexer::Mark;
use syntax_trees::syntax::{Access, Declaration, Declarations, Inner, Statements};
use token_cursor::naming::names_from;
use token_cursor::{Cursor, Stopped};

#[tactic(auto, using(token_cursor::proofs::Choosing::choose_none, token_cursor::proofs::Choosing::choose_some), unfolding(grammar_rules::specs::ReadModules::access))]
fn access(tokens: &mut Cursor<'_>) -> Result<Option<Access>, Stopped>
    ensures { Reads (spec.access tokens.old.rest.now) result tokens.new.rest.now }
{
    match takes_accessing(tokens) {
        Some((access, _)) => Ok(Some(access)),
        None => Ok(None),
    }
}

impl<N: NestedParsers> Grammar<N> {
    /// A declaration, whose first name was taken.
    #[tactic(auto, unfolding(grammar_rules::specs::ReadModules::declaration))]
    fn declaration(
        &self,
        tokens: &mut Cursor<'_>,
        first: Identifier,
    ) -> Result<Declaration, Stopped>
        requires { N.parse_at self.now.statements.level.nested self.now.statements.level.depth }
        ensures { Reads (spec.declaration (nested self.now.statements.level.depth) first tokens.old.rest.now) result tokens.new.rest.now }
    {
        let names = names_from(self.statements.level.alloc, tokens, first)?;
        let (names, _) = both(names, tokens.need_mark(Mark::Colon))?;
        let (names, access) = both(names, access(tokens))?;
        let (names, declared) = both(names, self.declared(tokens))?;
        let (held, _) = both((names, declared), tokens.need_mark(Mark::Semicolon))?;
        let (names, declared) = held;
        Ok(Declaration {
            names,
            access,
            declared,
        })
    }

    /// The statements behind these declarations.
    #[tactic(auto, unfolding(grammar_rules::specs::ReadModules::front_end))]
    fn behind_front(
        &self,
        tokens: &mut Cursor<'_>,
        all: Declarations,
    ) -> Result<Turn<Declaration>, Stopped>
        requires { N.parse_at self.now.statements.level.nested self.now.statements.level.depth }
        ensures { ReadsTurn (spec.front_end (nested self.now.statements.level.depth) all tokens.old.rest.now) result tokens.new.rest.now }
    {
        let (all, statements) = both(all, self.statements.body(tokens))?;
        Ok(Turn::All(all, statements))
    }

    /// A declaration or the statements behind these, whose first name was taken.
    #[tactic(auto, using(token_cursor::proofs::Choosing::when_true, token_cursor::proofs::Choosing::when_false), unfolding(grammar_rules::specs::ReadModules::front_from))]
    fn named_turn(
        &self,
        tokens: &mut Cursor<'_>,
        all: Declarations,
        first: Identifier,
    ) -> Result<Turn<Declaration>, Stopped>
        requires { N.parse_at self.now.statements.level.nested self.now.statements.level.depth }
        ensures { ReadsTurn (spec.front_from (nested self.now.statements.level.depth) all first tokens.old.rest.now) result tokens.new.rest.now }
    {
        if !declares(tokens) {
            let (all, statements) = both(all, self.statements.stmts(tokens, Some(first)))?;
            return Ok(Turn::All(all, statements));
        }
        let (all, declaration) = both(all, self.declaration(tokens, first))?;
        Ok(Turn::More(pushed(all, declaration)?))
    }

    /// One more declaration behind these, or the statements.
    #[tactic(auto, using(token_cursor::proofs::Choosing::choose_none, token_cursor::proofs::Choosing::choose_some, token_cursor::proofs::Choosing::if_true, token_cursor::proofs::Choosing::if_false), unfolding(grammar_rules::specs::ReadModules::front_turn))]
    fn turn(&self, tokens: &mut Cursor<'_>, all: Declarations) -> Result<Turn<Declaration>, Stopped>
        requires { N.parse_at self.now.statements.level.nested self.now.statements.level.depth }
        ensures { ReadsTurn (spec.front_turn (nested self.now.statements.level.depth) all tokens.old.rest.now) result tokens.new.rest.now }
    {
        if !self.statements.level.can() {
            return self.behind_front(tokens, all);
        }
        match tokens.takes_name(self.statements.level.alloc) {
            Ok(Some(first)) => self.named_turn(tokens, all, first),
            Ok(None) => self.behind_front(tokens, all),
            Err(_) => {
                all.let_go();
                Err(Stopped::Memory)
            }
        }
    }

    /// Further declarations behind these, and the statements behind them.
    #[tactic(auto, using(token_cursor::proofs::Loops::unroll, crate::proofs::FrontSteps::front_eats))]
    fn front(
        &self,
        tokens: &mut Cursor<'_>,
        mut all: Declarations,
    ) -> Result<(Declarations, Statements), Stopped>
        requires { N.parse_at self.now.statements.level.nested self.now.statements.level.depth }
        ensures { Reads (repeat (spec.front_turn (nested self.now.statements.level.depth)) all tokens.old.rest.now) result tokens.new.rest.now }
    {
        'declarations: loop {
            match self.turn(tokens, all)? {
                Turn::More(longer) => all = longer,
                Turn::All(all, statements) => return Ok((all, statements)),
            }
        }
    }

    #[tactic(auto, unfolding(grammar_rules::specs::ReadModules::inner))]
    pub fn inner(&self, tokens: &mut Cursor<'_>) -> Result<Inner, Stopped>
        requires { N.parse_at self.now.statements.level.nested self.now.statements.level.depth }
        ensures { Reads (spec.inner (nested self.now.statements.level.depth) tokens.old.rest.now) result tokens.new.rest.now }
    {
        let enable = self.statements.enabling(tokens)?;
        let front = self.front(tokens, List::new(self.statements.level.alloc));
        let (enable, front) = both(enable, front)?;
        let (held, exits) = both((enable, front), self.statements.exit_part(tokens))?;
        let (enable, (declarations, statements)) = held;
        Ok(Inner {
            enable,
            declarations,
            statements,
            exits,
        })
    }
}
