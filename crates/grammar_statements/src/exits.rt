//! What a block or loop has besides its statements: the arms that it enables, and its exits.

ghost use Rattle.std.specs.Prelude.{◌≡◌};
ghost use Rattle.token_cursor.specs.Running.{Reads};
ghost use Rattle.token_cursor.specs.Parsing.{ended};
ghost use Rattle.grammar_rules.specs.ReadNested.{begins_repeat};
ghost use Rattle.grammar_rules.specs.ReadStatements.{nested, semicolon, begins_label};
ghost use Rattle.grammar_rules.specs.ReadStatements as spec;

use crate::nesting::StatementParser;
use grammar_expressions::NestedParsers;
use grammar_expressions::grammar_tokens::begins::begins_repeat;
use grammar_expressions::grammar_tokens::naming::repeat_labels;
use held_trees::{both, pushed};
use mesa_base::{List, Place, Placed};
use mesa_lexer::{Mark, Word};
use syntax_trees::syntax::{Exit, Exits, Labeled, Phrase, Repeat, Repeats};
use token_cursor::naming::names;
use token_cursor::{Cursor, Stopped};

impl<N: NestedParsers> StatementParser<N> {
    #[tactic(auto, unfolding(grammar_rules::specs::ReadStatements::exit))]
    fn exit(&self, tokens: &mut Cursor<'_>) -> Result<Exit, Stopped>
        requires { N.parse_at self.now.level.nested self.now.level.depth }
        ensures { Reads (spec.exit (nested self.now.level.depth) tokens.old.rest.now) result tokens.new.rest.now }
    {
        let labels = names(self.level.alloc, tokens)?;
        let (labels, _) = both(labels, tokens.need_mark(Mark::DoubleArrow))?;
        let (labels, item) = both(labels, self.level.stmt(tokens, None))?;
        Ok(Labeled { labels, item })
    }

    /// Further exits behind these.
    #[tactic(auto, using(token_cursor::proofs::Taking::ended_by, grammar_rules::proofs::Parts::exits_eats))]
    fn more_exits(&self, tokens: &mut Cursor<'_>, mut all: Exits) -> Result<Exits, Stopped>
        requires { N.parse_at self.now.level.nested self.now.level.depth }
        ensures { Reads (ended semicolon begins_label (spec.exits_step (nested self.now.level.depth)) all tokens.old.rest.now) result tokens.new.rest.now }
    {
        'exits: while tokens.takes_mark(Mark::Semicolon).is_some() {
            if !tokens.begins_name() {
                break;
            }
            let (held, exit) = both(all, self.exit(tokens))?;
            all = pushed(held, exit)?;
        }
        Ok(all)
    }

    #[tactic(auto, unfolding(grammar_rules::specs::ReadStatements::exits))]
    fn exits(&self, tokens: &mut Cursor<'_>) -> Result<Exits, Stopped>
        requires { N.parse_at self.now.level.nested self.now.level.depth }
        ensures { Reads (spec.exits (nested self.now.level.depth) tokens.old.rest.now) result tokens.new.rest.now }
    {
        let first = self.exit(tokens)?;
        let all = pushed(List::new(self.level.alloc), first)?;
        self.more_exits(tokens, all)
    }

    /// The EXITS of a block, if there are any.
    #[tactic(auto, using(token_cursor::proofs::Choosing::choose_none, token_cursor::proofs::Choosing::choose_some), unfolding(grammar_rules::specs::ReadStatements::exit_part))]
    pub fn exit_part(&self, tokens: &mut Cursor<'_>) -> Result<Exits, Stopped>
        requires { N.parse_at self.now.level.nested self.now.level.depth }
        ensures { Reads (spec.exit_part (nested self.now.level.depth) tokens.old.rest.now) result tokens.new.rest.now }
    {
        match tokens.takes_word(Word::ExitsWord) {
            Some(_) => self.exits(tokens),
            None => Ok(List::new(self.level.alloc)),
        }
    }

    /// What a loop does that was left by some labels, or at its end.
    #[tactic(auto, unfolding(grammar_rules::specs::ReadStatements::an_end))]
    fn an_end(&self, tokens: &mut Cursor<'_>) -> Result<Repeat, Stopped>
        requires { N.parse_at self.now.level.nested self.now.level.depth }
        ensures { Reads (spec.an_end (nested self.now.level.depth) tokens.old.rest.now) result tokens.new.rest.now }
    {
        let labels = repeat_labels(self.level.alloc, tokens)?;
        let (labels, _) = both(labels, tokens.need_mark(Mark::DoubleArrow))?;
        let (labels, item) = both(labels, self.level.stmt(tokens, None))?;
        Ok(Labeled { labels, item })
    }

    /// Further ends behind these.
    #[tactic(auto, using(token_cursor::proofs::Taking::ended_by, grammar_rules::proofs::Parts::repeats_eats))]
    fn more_ends(&self, tokens: &mut Cursor<'_>, mut all: Repeats) -> Result<Repeats, Stopped>
        requires { N.parse_at self.now.level.nested self.now.level.depth }
        ensures { Reads (ended semicolon begins_repeat (spec.repeats_step (nested self.now.level.depth)) all tokens.old.rest.now) result tokens.new.rest.now }
    {
        'ends: while tokens.takes_mark(Mark::Semicolon).is_some() {
            if !begins_repeat(tokens) {
                break;
            }
            let (held, end) = both(all, self.an_end(tokens))?;
            all = pushed(held, end)?;
        }
        Ok(all)
    }

    #[tactic(auto, unfolding(grammar_rules::specs::ReadStatements::repeats))]
    fn repeats(&self, tokens: &mut Cursor<'_>) -> Result<Repeats, Stopped>
        requires { N.parse_at self.now.level.nested self.now.level.depth }
        ensures { Reads (spec.repeats (nested self.now.level.depth) tokens.old.rest.now) result tokens.new.rest.now }
    {
        let first = self.an_end(tokens)?;
        let all = pushed(List::new(self.level.alloc), first)?;
        self.more_ends(tokens, all)
    }

    /// The ends of a loop behind REPEAT, if there are any.
    #[tactic(auto, using(token_cursor::proofs::Choosing::choose_none, token_cursor::proofs::Choosing::choose_some), unfolding(grammar_rules::specs::ReadStatements::repeat_part))]
    pub fn repeat_part(&self, tokens: &mut Cursor<'_>) -> Result<Repeats, Stopped>
        requires { N.parse_at self.now.level.nested self.now.level.depth }
        ensures { Reads (spec.repeat_part (nested self.now.level.depth) tokens.old.rest.now) result tokens.new.rest.now }
    {
        match tokens.takes_word(Word::RepeatWord) {
            Some(_) => self.repeats(tokens),
            None => Ok(List::new(self.level.alloc)),
        }
    }

    #[tactic(auto, unfolding(grammar_rules::specs::ReadStatements::enable_many))]
    fn enable_many(&self, tokens: &mut Cursor<'_>, place: Place) -> Result<Option<Phrase>, Stopped>
        requires { N.parse_at self.now.level.nested self.now.level.depth }
        ensures { Reads (spec.enable_many (nested self.now.level.depth) place tokens.old.rest.now) result tokens.new.rest.now }
    {
        let item = self.level.arm_list(tokens)?;
        let (item, _) = both(item, tokens.need_word(Word::EndWord))?;
        let (item, _) = both(item, tokens.need_mark(Mark::Semicolon))?;
        Ok(Some(Placed { place, item }))
    }

    #[tactic(auto, unfolding(grammar_rules::specs::ReadStatements::enable_one))]
    fn enable_one(&self, tokens: &mut Cursor<'_>, place: Place) -> Result<Option<Phrase>, Stopped>
        requires { N.parse_at self.now.level.nested self.now.level.depth }
        ensures { Reads (spec.enable_one (nested self.now.level.depth) place tokens.old.rest.now) result tokens.new.rest.now }
    {
        let arm = self.level.arm(tokens)?;
        let item = pushed(List::new(self.level.alloc), arm)?;
        let (item, _) = both(item, tokens.need_mark(Mark::Semicolon))?;
        Ok(Some(Placed { place, item }))
    }

    /// The catch phrase of an ENABLE, if there is one.
    #[tactic(auto, using(token_cursor::proofs::Choosing::choose_none, token_cursor::proofs::Choosing::choose_some), unfolding(grammar_rules::specs::ReadStatements::enabling))]
    pub fn enabling(&self, tokens: &mut Cursor<'_>) -> Result<Option<Phrase>, Stopped>
        requires { N.parse_at self.now.level.nested self.now.level.depth }
        ensures { Reads (spec.enabling (nested self.now.level.depth) tokens.old.rest.now) result tokens.new.rest.now }
    {
        let Some(place) = tokens.takes_word(Word::EnableWord) else {
            return Ok(None);
        };
        match tokens.takes_word(Word::BeginWord) {
            Some(_) => self.enable_many(tokens, place),
            None => self.enable_one(tokens, place),
        }
    }
}
