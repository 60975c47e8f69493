//! Assignments, extractors and calls.

ghost use Rattle.std.specs.Prelude.{◌≡◌};
ghost use Rattle.token_cursor.specs.Running.{Reads};
ghost use Rattle.grammar_expressions.specs.Tails as tails;
ghost use Rattle.token_cursor.specs.Parsing.{many};
ghost use Rattle.grammar_rules.specs.ReadNested.{comma};
ghost use Rattle.grammar_rules.specs.ReadStatements.{nested};
ghost use Rattle.grammar_rules.specs.ReadStatements as spec;

use crate::nesting::{Level, NestedParsers};
use grammar_rules::Begun;
use held_trees::{both, pushed};
use mesa_base::{Identifier, List, Place};
use mesa_lexer::Mark;
use syntax_trees::syntax::{Entries, Keyed, Left, Statement, Suffixes};
use token_cursor::naming::named;
use token_cursor::{Cursor, Stopped};

impl<N: NestedParsers> Level<N> {
    /// These targets with one more, behind its comma.
    fn left(
        &self,
        tokens: &mut Cursor<'_>,
        all: List<Left>,
        place: Place,
    ) -> Result<List<Left>, Stopped>
        requires { N.parse_at self.now.nested self.now.depth }
        ensures { Reads (spec.lefts_step (nested self.now.depth) all tt place tokens.old.rest.now) result tokens.new.rest.now }
    {
        let (all, name) = both(all, named(self.alloc, tokens))?;
        let ((all, name), suffixes) = both((all, name), self.suffixes(tokens))?;
        Ok(pushed(all, Left { name, suffixes })?)
    }

    /// Further targets behind these.
    #[tactic(auto, using(token_cursor::proofs::Taking::many_by, grammar_rules::proofs::Parts::lefts_eats))]
    fn more_lefts(
        &self,
        tokens: &mut Cursor<'_>,
        mut all: List<Left>,
    ) -> Result<List<Left>, Stopped>
        requires { N.parse_at self.now.nested self.now.depth }
        ensures { Reads (many comma (spec.lefts_step (nested self.now.depth)) all tokens.old.rest.now) result tokens.new.rest.now }
    {
        'lefts: while let Some(place) = tokens.takes_mark(Mark::Comma) {
            all = self.left(tokens, all, place)?;
        }
        Ok(all)
    }

    /// Targets in order, the first of which has this name.
    #[tactic(auto, unfolding(grammar_rules::specs::ReadStatements::lefts))]
    fn lefts(&self, tokens: &mut Cursor<'_>, name: Identifier) -> Result<Entries<Left>, Stopped>
        requires { N.parse_at self.now.nested self.now.depth }
        ensures { Reads (spec.lefts (nested self.now.depth) name tokens.old.rest.now) result tokens.new.rest.now }
    {
        let (name, suffixes) = both(name, self.suffixes(tokens))?;
        let all = pushed(List::new(self.alloc), Left { name, suffixes })?;
        let all = self.more_lefts(tokens, all)?;
        Ok(Entries::InOrder(all))
    }

    /// These targets with one more and its key, behind its comma.
    fn key_left(
        &self,
        tokens: &mut Cursor<'_>,
        all: List<Keyed<Left>>,
        place: Place,
    ) -> Result<List<Keyed<Left>>, Stopped>
        requires { N.parse_at self.now.nested self.now.depth }
        ensures { Reads (spec.key_lefts_step (nested self.now.depth) all tt place tokens.old.rest.now) result tokens.new.rest.now }
    {
        let (all, key) = both(all, named(self.alloc, tokens))?;
        let ((all, key), _) = both((all, key), tokens.need_mark(Mark::Colon))?;
        let ((all, key), name) = both((all, key), named(self.alloc, tokens))?;
        let (((all, key), name), suffixes) = both(((all, key), name), self.suffixes(tokens))?;
        let item = Left { name, suffixes };
        Ok(pushed(all, Keyed { key, item })?)
    }

    /// Further targets behind these, each with its key.
    #[tactic(auto, using(token_cursor::proofs::Taking::many_by, grammar_rules::proofs::Parts::key_lefts_eats))]
    fn more_key_lefts(
        &self,
        tokens: &mut Cursor<'_>,
        mut all: List<Keyed<Left>>,
    ) -> Result<List<Keyed<Left>>, Stopped>
        requires { N.parse_at self.now.nested self.now.depth }
        ensures { Reads (many comma (spec.key_lefts_step (nested self.now.depth)) all tokens.old.rest.now) result tokens.new.rest.now }
    {
        'key_lefts: while let Some(place) = tokens.takes_mark(Mark::Comma) {
            all = self.key_left(tokens, all, place)?;
        }
        Ok(all)
    }

    /// Targets with their keys, behind the first key and its colon.
    #[tactic(auto, unfolding(grammar_rules::specs::ReadStatements::key_lefts))]
    fn key_lefts(&self, tokens: &mut Cursor<'_>, key: Identifier) -> Result<Entries<Left>, Stopped>
        requires { N.parse_at self.now.nested self.now.depth }
        ensures { Reads (spec.key_lefts (nested self.now.depth) key tokens.old.rest.now) result tokens.new.rest.now }
    {
        let (key, name) = both(key, named(self.alloc, tokens))?;
        let ((key, name), suffixes) = both((key, name), self.suffixes(tokens))?;
        let item = Left { name, suffixes };
        let all = pushed(List::new(self.alloc), Keyed { key, item })?;
        let all = self.more_key_lefts(tokens, all)?;
        Ok(Entries::ByKey(all))
    }

    #[tactic(auto, using(token_cursor::proofs::Choosing::choose_none, token_cursor::proofs::Choosing::choose_some), unfolding(grammar_rules::specs::ReadStatements::targets_from))]
    fn targets_from(
        &self,
        tokens: &mut Cursor<'_>,
        first: Identifier,
    ) -> Result<Entries<Left>, Stopped>
        requires { N.parse_at self.now.nested self.now.depth }
        ensures { Reads (spec.targets_from (nested self.now.depth) first tokens.old.rest.now) result tokens.new.rest.now }
    {
        match tokens.takes_mark(Mark::Colon) {
            Some(_) => self.key_lefts(tokens, first),
            None => self.lefts(tokens, first),
        }
    }

    #[tactic(auto, using(token_cursor::proofs::Choosing::choose_none, token_cursor::proofs::Choosing::choose_some), unfolding(grammar_rules::specs::ReadStatements::targets))]
    fn all_targets(&self, tokens: &mut Cursor<'_>) -> Result<Entries<Left>, Stopped>
        requires { N.parse_at self.now.nested self.now.depth }
        ensures { Reads (spec.targets (nested self.now.depth) tokens.old.rest.now) result tokens.new.rest.now }
    {
        match tokens.takes_name(self.alloc)? {
            Some(first) => self.targets_from(tokens, first),
            None => Ok(Entries::Nothing),
        }
    }

    /// An extractor, behind its bracket.
    #[tactic(auto, unfolding(grammar_rules::specs::ReadStatements::extract))]
    pub fn extract(&self, tokens: &mut Cursor<'_>, place: Place) -> Result<Statement, Stopped>
        requires { N.parse_at self.now.nested self.now.depth }
        ensures { Reads (spec.extract (nested self.now.depth) place tokens.old.rest.now) result tokens.new.rest.now }
    {
        let targets = self.all_targets(tokens)?;
        let (targets, _) = both(targets, tokens.need_mark(Mark::RightBracket))?;
        let (targets, _) = both(targets, tokens.need_mark(Mark::Arrow))?;
        let (targets, value) = both(targets, self.expr(tokens, Begun::Fresh))?;
        Ok(Statement::Extract(place, targets, value))
    }

    /// An assignment, behind its arrow.
    #[tactic(auto, unfolding(crate::specs::Tails::assignment))]
    fn assignment(
        &self,
        tokens: &mut Cursor<'_>,
        name: Identifier,
        suffixes: Suffixes,
    ) -> Result<Statement, Stopped>
        requires { N.parse_at self.now.nested self.now.depth }
        ensures { Reads (tails.assignment (nested self.now.depth) name suffixes tokens.old.rest.now) result tokens.new.rest.now }
    {
        let value = self.expr(tokens, Begun::Fresh);
        let ((name, suffixes), value) = both((name, suffixes), value)?;
        Ok(Statement::Assign(Left { name, suffixes }, value))
    }

    /// An assignment or a call, whose name was taken.
    #[tactic(auto, using(token_cursor::proofs::Choosing::choose_none, token_cursor::proofs::Choosing::choose_some), unfolding(grammar_rules::specs::ReadStatements::assigned, crate::specs::Tails::assignment))]
    pub fn assigned(&self, tokens: &mut Cursor<'_>, name: Identifier) -> Result<Statement, Stopped>
        requires { N.parse_at self.now.nested self.now.depth }
        ensures { Reads (spec.assigned (nested self.now.depth) name tokens.old.rest.now) result tokens.new.rest.now }
    {
        let suffixes = self.suffixes(tokens)?;
        match tokens.takes_mark(Mark::Arrow) {
            Some(_) => self.assignment(tokens, name, suffixes),
            None => Ok(Statement::Call(Left { name, suffixes })),
        }
    }
}
