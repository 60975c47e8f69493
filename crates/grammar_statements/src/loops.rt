//! Loops, and what stands before their DO.

ghost use Rattle.std.specs.Prelude.{◌≡◌};
ghost use Rattle.token_cursor.specs.Running.{Reads};
ghost use Rattle.grammar_rules.specs.ReadStatements.{nested};
ghost use Rattle.grammar_rules.specs.ReadStatements as spec;

use crate::nesting::StatementParser;
use grammar_expressions::NestedParsers;
use grammar_rules::Begun;
use held_trees::{both, boxed};
use mesa_base::Place;
use mesa_lexer::Word;
use syntax_trees::syntax::{Condition, Control, Count, Statement};
use token_cursor::naming::named;
use token_cursor::{Cursor, Stopped};

#[tactic(auto, using(token_cursor::proofs::Choosing::choose_none, token_cursor::proofs::Choosing::choose_some), unfolding(grammar_rules::specs::ReadStatements::decreasing))]
fn decreasing(tokens: &mut Cursor<'_>) -> Result<bool, Stopped>
    ensures { Reads (spec.decreasing tokens.old.rest.now) result tokens.new.rest.now }
{
    match tokens.takes_word(Word::DecreasingWord) {
        Some(_) => Ok(true),
        None => Ok(false),
    }
}

impl<N: NestedParsers> StatementParser<N> {
    #[tactic(auto, using(crate::proofs::Stepping::for_by))]
    fn for_count(&self, tokens: &mut Cursor<'_>, place: Place) -> Result<Option<Count>, Stopped>
        requires { N.parse_at self.now.level.nested self.now.level.depth }
        ensures { Reads (spec.for (nested self.now.level.depth) place tokens.old.rest.now) result tokens.new.rest.now }
    {
        let variable = named(self.level.alloc, tokens)?;
        let (variable, is_decreasing) = both(variable, decreasing(tokens))?;
        let (variable, _) = both(variable, tokens.need_word(Word::InWord))?;
        let (variable, interval) = both(variable, self.level.interval(tokens))?;
        Ok(Some(Count::For {
            place,
            variable,
            is_decreasing,
            interval,
        }))
    }

    #[tactic(auto, unfolding(grammar_rules::specs::ReadStatements::through))]
    fn through_count(&self, tokens: &mut Cursor<'_>, place: Place) -> Result<Option<Count>, Stopped>
        requires { N.parse_at self.now.level.nested self.now.level.depth }
        ensures { Reads (spec.through (nested self.now.level.depth) place tokens.old.rest.now) result tokens.new.rest.now }
    {
        let interval = self.level.interval(tokens)?;
        Ok(Some(Count::Through(place, interval)))
    }

    #[tactic(auto, using(token_cursor::proofs::Choosing::choose_none, token_cursor::proofs::Choosing::choose_some), unfolding(grammar_rules::specs::ReadStatements::count))]
    fn count(&self, tokens: &mut Cursor<'_>) -> Result<Option<Count>, Stopped>
        requires { N.parse_at self.now.level.nested self.now.level.depth }
        ensures { Reads (spec.count (nested self.now.level.depth) tokens.old.rest.now) result tokens.new.rest.now }
    {
        if let Some(place) = tokens.takes_word(Word::ForWord) {
            return self.for_count(tokens, place);
        }
        match tokens.takes_word(Word::ThroughWord) {
            Some(place) => self.through_count(tokens, place),
            None => Ok(None),
        }
    }

    #[tactic(auto, using(token_cursor::proofs::Choosing::choose_none, token_cursor::proofs::Choosing::choose_some), unfolding(grammar_rules::specs::ReadStatements::condition))]
    fn condition(&self, tokens: &mut Cursor<'_>) -> Result<Option<Condition>, Stopped>
        requires { N.parse_at self.now.level.nested self.now.level.depth }
        ensures { Reads (spec.condition (nested self.now.level.depth) tokens.old.rest.now) result tokens.new.rest.now }
    {
        if let Some(place) = tokens.takes_word(Word::WhileWord) {
            let test = self.level.expr(tokens, Begun::Fresh)?;
            return Ok(Some(Condition::While(place, test)));
        }
        match tokens.takes_word(Word::UntilWord) {
            Some(place) => {
                let test = self.level.expr(tokens, Begun::Fresh)?;
                Ok(Some(Condition::Until(place, test)))
            }
            None => Ok(None),
        }
    }

    #[tactic(auto, unfolding(grammar_rules::specs::ReadStatements::control))]
    fn control(&self, tokens: &mut Cursor<'_>) -> Result<Control, Stopped>
        requires { N.parse_at self.now.level.nested self.now.level.depth }
        ensures { Reads (spec.control (nested self.now.level.depth) tokens.old.rest.now) result tokens.new.rest.now }
    {
        let count = self.count(tokens)?;
        let (count, condition) = both(count, self.condition(tokens))?;
        Ok(Control { count, condition })
    }

    /// A loop, from its first word on.
    #[tactic(auto, using(crate::proofs::Stepping::loop_by))]
    pub fn loop_statement(&self, tokens: &mut Cursor<'_>) -> Result<Statement, Stopped>
        requires { N.parse_at self.now.level.nested self.now.level.depth }
        ensures { Reads (spec.loop (nested self.now.level.depth) tokens.old.rest.now) result tokens.new.rest.now }
    {
        let control = self.control(tokens)?;
        let control = boxed(self.level.alloc, control)?;
        let (control, place) = both(control, tokens.need_word(Word::DoWord))?;
        let (control, enable) = both(control, self.enabling(tokens))?;
        let (held, body) = both((control, enable), self.body(tokens))?;
        let (held, ends) = both((held, body), self.repeat_part(tokens))?;
        let ((held, ends), _) = both((held, ends), tokens.need_word(Word::EndloopWord))?;
        let ((control, enable), body) = held;
        Ok(Statement::Loop(control, place, enable, body, ends))
    }
}
