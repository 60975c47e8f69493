//! SELECT.

ghost use Rattle.std.specs.Prelude.{◌≡◌};
ghost use Rattle.token_cursor.specs.Running.{Reads, skip};
ghost use Rattle.token_cursor.specs.Parsing.{ended, many};
ghost use Rattle.grammar_rules.specs.ReadNested.{begins_test, comma};
ghost use Rattle.grammar_rules.specs.ReadStatements.{nested, semicolon};
ghost use Rattle.grammar_rules.specs.ReadStatements as spec;

use crate::nesting::StatementParser;
use grammar_expressions::NestedParsers;
use grammar_expressions::grammar_tokens::begins::begins_test;
use grammar_expressions::grammar_tokens::words_and_marks::{takes_negating, takes_relating};
use grammar_rules::Begun;
use held_trees::{both, boxed, pushed};
use mesa_base::{Boxed, List, Place};
use mesa_lexer::{Mark, Word};
use syntax_trees::syntax::{Case, Cases, Statement, Test, Tests};
use token_cursor::{Cursor, Stopped};

impl<N: NestedParsers> StatementParser<N> {
    /// A test behind NOT.
    #[tactic(auto, using(token_cursor::proofs::Choosing::choose_none, token_cursor::proofs::Choosing::choose_some), unfolding(grammar_rules::specs::ReadStatements::after_not))]
    fn after_not(&self, tokens: &mut Cursor<'_>, place: Place) -> Result<Test, Stopped>
        requires { N.parse_at self.now.level.nested self.now.level.depth }
        ensures { Reads (spec.after_not (nested self.now.level.depth) place tokens.old.rest.now) result tokens.new.rest.now }
    {
        if let Some((relation, at)) = takes_relating(tokens) {
            let right = self.level.sum(tokens, None)?;
            return Ok(Test::Compared {
                is_negated: true,
                relation,
                place: at,
                right,
            });
        }
        match tokens.takes_word(Word::InWord) {
            Some(at) => {
                let interval = self.level.interval(tokens)?;
                Ok(Test::Inside {
                    is_negated: true,
                    place: at,
                    interval,
                })
            }
            None => {
                let value = self.level.expr(tokens, Begun::AtNot(place))?;
                Ok(Test::Value(value))
            }
        }
    }

    /// A test that begins with no NOT, or where NOT may not be taken.
    #[tactic(auto, using(token_cursor::proofs::Choosing::choose_none, token_cursor::proofs::Choosing::choose_some), unfolding(grammar_rules::specs::ReadStatements::unnegated))]
    fn unnegated(&self, tokens: &mut Cursor<'_>) -> Result<Test, Stopped>
        requires { N.parse_at self.now.level.nested self.now.level.depth }
        ensures { Reads (spec.unnegated (nested self.now.level.depth) tokens.old.rest.now) result tokens.new.rest.now }
    {
        if let Some((relation, at)) = takes_relating(tokens) {
            let right = self.level.sum(tokens, None)?;
            return Ok(Test::Compared {
                is_negated: false,
                relation,
                place: at,
                right,
            });
        }
        match tokens.takes_word(Word::InWord) {
            Some(at) => {
                let interval = self.level.interval(tokens)?;
                Ok(Test::Inside {
                    is_negated: false,
                    place: at,
                    interval,
                })
            }
            None => {
                let value = self.level.expr(tokens, Begun::Fresh)?;
                Ok(Test::Value(value))
            }
        }
    }

    #[tactic(auto, using(crate::proofs::Stepping::test_by, token_cursor::proofs::Choosing::choose_none, token_cursor::proofs::Choosing::choose_some, token_cursor::proofs::Choosing::if_true, token_cursor::proofs::Choosing::if_false))]
    fn test(&self, tokens: &mut Cursor<'_>) -> Result<Test, Stopped>
        requires { N.parse_at self.now.level.nested self.now.level.depth }
        ensures { Reads (spec.test (nested self.now.level.depth) tokens.old.rest.now) result tokens.new.rest.now }
    {
        if !self.level.can() {
            return self.unnegated(tokens);
        }
        match takes_negating(tokens) {
            Some(place) => self.after_not(tokens, place),
            None => self.unnegated(tokens),
        }
    }

    /// Further tests behind these.
    #[tactic(auto, using(token_cursor::proofs::Taking::many_by, grammar_rules::proofs::Parts::tests_eats))]
    fn more_tests(&self, tokens: &mut Cursor<'_>, mut all: Tests) -> Result<Tests, Stopped>
        requires { N.parse_at self.now.level.nested self.now.level.depth }
        ensures { Reads (many comma (spec.tests_step (nested self.now.level.depth)) all tokens.old.rest.now) result tokens.new.rest.now }
    {
        'tests: while tokens.takes_mark(Mark::Comma).is_some() {
            let (held, test) = both(all, self.test(tokens))?;
            all = pushed(held, test)?;
        }
        Ok(all)
    }

    #[tactic(auto, unfolding(grammar_rules::specs::ReadStatements::case))]
    fn case(&self, tokens: &mut Cursor<'_>) -> Result<Case, Stopped>
        requires { N.parse_at self.now.level.nested self.now.level.depth }
        ensures { Reads (spec.case (nested self.now.level.depth) tokens.old.rest.now) result tokens.new.rest.now }
    {
        let first = self.test(tokens)?;
        let tests = pushed(List::new(self.level.alloc), first)?;
        let tests = self.more_tests(tokens, tests)?;
        let (tests, _) = both(tests, tokens.need_mark(Mark::DoubleArrow))?;
        let (tests, body) = both(tests, self.level.stmt(tokens, None))?;
        Ok(Case { tests, body })
    }

    /// Further cases behind these.
    #[tactic(auto, using(token_cursor::proofs::Taking::ended_by, grammar_rules::proofs::Parts::cases_eats))]
    fn more_cases(&self, tokens: &mut Cursor<'_>, mut all: Cases) -> Result<Cases, Stopped>
        requires { N.parse_at self.now.level.nested self.now.level.depth }
        ensures { Reads (ended semicolon begins_test (spec.cases_step (nested self.now.level.depth)) all tokens.old.rest.now) result tokens.new.rest.now }
    {
        'cases: while tokens.takes_mark(Mark::Semicolon).is_some() {
            if !begins_test(tokens) {
                break;
            }
            let (held, case) = both(all, self.case(tokens))?;
            all = pushed(held, case)?;
        }
        Ok(all)
    }

    #[tactic(auto, unfolding(grammar_rules::specs::ReadStatements::cases))]
    fn cases(&self, tokens: &mut Cursor<'_>) -> Result<Cases, Stopped>
        requires { N.parse_at self.now.level.nested self.now.level.depth }
        ensures { Reads (spec.cases (nested self.now.level.depth) tokens.old.rest.now) result tokens.new.rest.now }
    {
        let first = self.case(tokens)?;
        let all = pushed(List::new(self.level.alloc), first)?;
        self.more_cases(tokens, all)
    }

    #[tactic(auto, using(token_cursor::proofs::Choosing::when_true, token_cursor::proofs::Choosing::when_false), unfolding(grammar_rules::specs::ReadStatements::case_list))]
    fn case_list(&self, tokens: &mut Cursor<'_>) -> Result<Cases, Stopped>
        requires { N.parse_at self.now.level.nested self.now.level.depth }
        ensures { Reads (spec.case_list (nested self.now.level.depth) tokens.old.rest.now) result tokens.new.rest.now }
    {
        if !begins_test(tokens) {
            return Ok(List::new(self.level.alloc));
        }
        self.cases(tokens)
    }

    /// The statement for no case, behind ENDCASE.
    #[tactic(auto, using(token_cursor::proofs::Choosing::choose_none, token_cursor::proofs::Choosing::choose_some), unfolding(grammar_rules::specs::ReadStatements::otherwise))]
    fn otherwise(&self, tokens: &mut Cursor<'_>) -> Result<Option<Boxed<Statement>>, Stopped>
        requires { N.parse_at self.now.level.nested self.now.level.depth }
        ensures { Reads (spec.otherwise (nested self.now.level.depth) tokens.old.rest.now) result tokens.new.rest.now }
    {
        match tokens.takes_mark(Mark::DoubleArrow) {
            Some(_) => {
                let body = self.level.stmt(tokens, None)?;
                Ok(Some(boxed(self.level.alloc, body)?))
            }
            None => Ok(None),
        }
    }

    /// SELECT, whose word comes next and stands at the place.
    #[tactic(auto, unfolding(grammar_rules::specs::ReadStatements::select))]
    pub fn select(&self, tokens: &mut Cursor<'_>, place: Place) -> Result<Statement, Stopped>
        requires { N.parse_at self.now.level.nested self.now.level.depth }
        ensures { Reads (spec.select (nested self.now.level.depth) place (skip tokens.old.rest.now)) result tokens.new.rest.now }
    {
        tokens.skip();
        let selector = self.level.expr(tokens, Begun::Fresh)?;
        let (selector, _) = both(selector, tokens.need_word(Word::FromWord))?;
        let (selector, cases) = both(selector, self.case_list(tokens))?;
        let (held, _) = both((selector, cases), tokens.need_word(Word::EndcaseWord))?;
        let ((selector, cases), otherwise) = both(held, self.otherwise(tokens))?;
        Ok(Statement::Select(place, selector, cases, otherwise))
    }
}
