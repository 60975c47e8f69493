//! Statements, and lists of them.

ghost use Rattle.std.specs.Prelude.{◌≡◌};
ghost use Rattle.token_cursor.specs.Running.{Reads, skip};
ghost use Rattle.token_cursor.specs.Parsing.{and_then, ended, pure};
ghost use Rattle.syntax_trees.specs.declared.syntax.Statement.TheVariants as s;
ghost use Rattle.grammar_rules.specs.ReadNested.{begins_stmt};
ghost use Rattle.grammar_rules.specs.ReadNested as names;
ghost use Rattle.grammar_rules.specs.ReadExpressions as x;
ghost use Rattle.grammar_rules.specs.ReadStatements.{nested, semicolon};
ghost use Rattle.grammar_rules.specs.ReadStatements as spec;
ghost use Rattle.grammar_statements.specs.ReadTails as tails;

use crate::blocks::BlockEnd;
use crate::nesting::StatementParser;
use crate::productions::{Production, begun_by};
use grammar_expressions::NestedParsers;
use grammar_expressions::grammar_tokens::begins::begins_stmt;
use grammar_rules::Begun;
use held_trees::{both, boxed, pushed};
use mesa_base::{Boxed, Identifier, List, Place};
use mesa_lexer::{Mark, Word};
use syntax_trees::syntax::{Expr, Statement, Statements};
use token_cursor::naming::named;
use token_cursor::{Cursor, Stopped};

/// A statement of one word, which comes next.
fn of_one_word(tokens: &mut Cursor<'_>, statement: Statement) -> Statement
    ensures same { result ≡ statement }
    ensures rest { tokens.new.rest.now ≡ skip tokens.old.rest.now }
{
    tokens.skip();
    statement
}

impl<N: NestedParsers> StatementParser<N> {
    /// Statements; of the first a name was taken or nothing.
    #[tactic(auto, unfolding(grammar_rules::specs::ReadStatements::stmts))]
    pub fn stmts(
        &self,
        tokens: &mut Cursor<'_>,
        begun: Option<Identifier>,
    ) -> Result<Statements, Stopped>
        requires { N.parse_at self.now.level.nested self.now.level.depth }
        ensures { Reads (spec.stmts (nested self.now.level.depth) begun tokens.old.rest.now) result tokens.new.rest.now }
    {
        let first = self.level.stmt(tokens, begun)?;
        let all = pushed(List::new(self.level.alloc), first)?;
        self.more_stmts(tokens, all)
    }

    /// Further statements behind these.
    #[tactic(auto, using(token_cursor::proofs::Taking::ended_by, grammar_rules::proofs::Parts::stmts_eats))]
    fn more_stmts(
        &self,
        tokens: &mut Cursor<'_>,
        mut all: Statements,
    ) -> Result<Statements, Stopped>
        requires { N.parse_at self.now.level.nested self.now.level.depth }
        ensures { Reads (ended semicolon begins_stmt (spec.stmts_step (nested self.now.level.depth)) all tokens.old.rest.now) result tokens.new.rest.now }
    {
        'statements: while tokens.takes_mark(Mark::Semicolon).is_some() {
            if !begins_stmt(tokens) {
                break;
            }
            let (held, next) = both(all, self.level.stmt(tokens, None))?;
            all = pushed(held, next)?;
        }
        Ok(all)
    }

    /// Statements, if there are any.
    #[tactic(auto, using(token_cursor::proofs::Choosing::when_true, token_cursor::proofs::Choosing::when_false), unfolding(grammar_rules::specs::ReadStatements::body))]
    pub fn body(&self, tokens: &mut Cursor<'_>) -> Result<Statements, Stopped>
        requires { N.parse_at self.now.level.nested self.now.level.depth }
        ensures { Reads (spec.body (nested self.now.level.depth) tokens.old.rest.now) result tokens.new.rest.now }
    {
        if !begins_stmt(tokens) {
            return Ok(List::new(self.level.alloc));
        }
        self.stmts(tokens, None)
    }

    /// The statement behind ELSE.
    #[tactic(auto, unfolding(crate::specs::ReadTails::alternative))]
    fn alternative(
        &self,
        tokens: &mut Cursor<'_>,
        place: Place,
        condition: Expr,
        first: Boxed<Statement>,
    ) -> Result<Statement, Stopped>
        requires { N.parse_at self.now.level.nested self.now.level.depth }
        ensures { Reads (tails.alternative (nested self.now.level.depth) place condition first tokens.old.rest.now) result tokens.new.rest.now }
    {
        let second = self.level.stmt(tokens, None);
        let ((condition, first), second) = both((condition, first), second)?;
        let second = boxed(self.level.alloc, second);
        let ((condition, first), second) = both((condition, first), second)?;
        Ok(Statement::If(place, condition, first, Some(second)))
    }

    /// What stands behind the first statement of an IF.
    #[tactic(auto, using(token_cursor::proofs::Choosing::choose_none, token_cursor::proofs::Choosing::choose_some), unfolding(grammar_rules::specs::ReadStatements::else_part, crate::specs::ReadTails::alternative))]
    fn else_part(
        &self,
        tokens: &mut Cursor<'_>,
        place: Place,
        condition: Expr,
        first: Boxed<Statement>,
    ) -> Result<Statement, Stopped>
        requires { N.parse_at self.now.level.nested self.now.level.depth }
        ensures { Reads (spec.else_part (nested self.now.level.depth) place condition first tokens.old.rest.now) result tokens.new.rest.now }
    {
        match tokens.takes_word(Word::ElseWord) {
            Some(_) => self.alternative(tokens, place, condition, first),
            None => Ok(Statement::If(place, condition, first, None)),
        }
    }

    /// IF, whose word comes next and stands at the place.
    #[tactic(auto, unfolding(grammar_rules::specs::ReadStatements::conditional))]
    fn conditional(&self, tokens: &mut Cursor<'_>, place: Place) -> Result<Statement, Stopped>
        requires { N.parse_at self.now.level.nested self.now.level.depth }
        ensures { Reads (spec.conditional (nested self.now.level.depth) place (skip tokens.old.rest.now)) result tokens.new.rest.now }
    {
        tokens.skip();
        let condition = self.level.expr(tokens, Begun::Fresh)?;
        let (condition, _) = both(condition, tokens.need_word(Word::ThenWord))?;
        let (condition, first) = both(condition, self.level.stmt(tokens, None))?;
        let (condition, first) = both(condition, boxed(self.level.alloc, first))?;
        self.else_part(tokens, place, condition, first)
    }

    /// GOTO, whose word comes next and stands at the place.
    fn goto(&self, tokens: &mut Cursor<'_>, place: Place) -> Result<Statement, Stopped>
        ensures { Reads (and_then (names.named (skip tokens.old.rest.now)) (λ i. pure (s.Goto place i))) result tokens.new.rest.now }
    {
        tokens.skip();
        let label = named(self.level.alloc, tokens)?;
        Ok(Statement::Goto(place, label))
    }

    /// GO TO, whose first word comes next and stands at the place.
    #[tactic(auto, unfolding(grammar_rules::specs::ReadStatements::go_to))]
    fn go_to(&self, tokens: &mut Cursor<'_>, place: Place) -> Result<Statement, Stopped>
        ensures { Reads (spec.go_to (nested self.now.level.depth) place (skip tokens.old.rest.now)) result tokens.new.rest.now }
    {
        tokens.skip();
        tokens.need_word(Word::ToWord)?;
        let label = named(self.level.alloc, tokens)?;
        Ok(Statement::Goto(place, label))
    }

    /// RETURN, whose word comes next and stands at the place.
    fn returning(&self, tokens: &mut Cursor<'_>, place: Place) -> Result<Statement, Stopped>
        requires { N.parse_at self.now.level.nested self.now.level.depth }
        ensures { Reads (and_then (x.list_option (nested self.now.level.depth) (skip tokens.old.rest.now)) (λ l. pure (s.Return place l))) result tokens.new.rest.now }
    {
        tokens.skip();
        let values = self.level.list_option(tokens)?;
        Ok(Statement::Return(place, values))
    }

    /// RESUME, whose word comes next and stands at the place.
    fn resuming(&self, tokens: &mut Cursor<'_>, place: Place) -> Result<Statement, Stopped>
        requires { N.parse_at self.now.level.nested self.now.level.depth }
        ensures { Reads (and_then (x.list_option (nested self.now.level.depth) (skip tokens.old.rest.now)) (λ l. pure (s.Resume place l))) result tokens.new.rest.now }
    {
        tokens.skip();
        let values = self.level.list_option(tokens)?;
        Ok(Statement::Resume(place, values))
    }

    /// A raise as a statement.
    fn raising(&self, tokens: &mut Cursor<'_>) -> Result<Statement, Stopped>
        requires { N.parse_at self.now.level.nested self.now.level.depth }
        ensures { Reads (and_then (x.raise (nested self.now.level.depth) tokens.old.rest.now) (λ r. pure (s.RaiseStatement r))) result tokens.new.rest.now }
    {
        let raise = self.level.raise(tokens)?;
        Ok(Statement::RaiseStatement(boxed(self.level.alloc, raise)?))
    }

    /// An extractor, whose bracket comes next and stands at the place.
    fn extracting(&self, tokens: &mut Cursor<'_>, place: Place) -> Result<Statement, Stopped>
        requires { N.parse_at self.now.level.nested self.now.level.depth }
        ensures { Reads (spec.extract (nested self.now.level.depth) place (skip tokens.old.rest.now)) result tokens.new.rest.now }
    {
        tokens.skip();
        self.level.extract(tokens, place)
    }

    /// An assignment or a call.
    fn assigning(&self, tokens: &mut Cursor<'_>) -> Result<Statement, Stopped>
        requires { N.parse_at self.now.level.nested self.now.level.depth }
        ensures { Reads (and_then (names.named tokens.old.rest.now) (λ i. spec.assigned (nested self.now.level.depth) i)) result tokens.new.rest.now }
    {
        let name = named(self.level.alloc, tokens)?;
        self.level.assigned(tokens, name)
    }

    /// A statement, of which nothing was taken.
    #[tactic(auto, using(crate::proofs::Rows::at_end))]
    fn fresh_statement(&self, tokens: &mut Cursor<'_>) -> Result<Statement, Stopped>
        requires { N.parse_at self.now.level.nested self.now.level.depth }
        ensures { Reads (spec.statement (nested self.now.level.depth) None tokens.old.rest.now) result tokens.new.rest.now }
    {
        let Some(token) = tokens.peek() else {
            return Err(Stopped::Unexpected);
        };
        let place = token.place;
        match begun_by(&token.kind) {
            Production::AssignOrCall => self.assigning(tokens),
            Production::Extract => self.extracting(tokens, place),
            Production::BlockByBrace => self.nested_block(tokens, BlockEnd::ByBrace, place),
            Production::BlockByWord => self.nested_block(tokens, BlockEnd::ByWord, place),
            Production::If => self.conditional(tokens, place),
            Production::Select => self.select(tokens, place),
            Production::GotoInOneWord => self.goto(tokens, place),
            Production::GotoInTwoWords => self.go_to(tokens, place),
            Production::Return => self.returning(tokens, place),
            Production::Resume => self.resuming(tokens, place),
            Production::Raise => self.raising(tokens),
            Production::Null => Ok(of_one_word(tokens, Statement::Null(place))),
            Production::ExitLoop => Ok(of_one_word(tokens, Statement::ExitLoop(place))),
            Production::NextTurn => Ok(of_one_word(tokens, Statement::NextTurn(place))),
            Production::Reject => Ok(of_one_word(tokens, Statement::Reject(place))),
            Production::Retry => Ok(of_one_word(tokens, Statement::Retry(place))),
            Production::Continue => Ok(of_one_word(tokens, Statement::Continue(place))),
            Production::Loop => self.loop_statement(tokens),
            Production::Nothing => Err(Stopped::Unexpected),
        }
    }

    /// A statement, of which a name was taken or nothing.
    #[tactic(auto, unfolding(grammar_rules::specs::ReadStatements::statement))]
    pub fn statement(
        &self,
        tokens: &mut Cursor<'_>,
        begun: Option<Identifier>,
    ) -> Result<Statement, Stopped>
        requires { N.parse_at self.now.level.nested self.now.level.depth }
        ensures { Reads (spec.statement (nested self.now.level.depth) begun tokens.old.rest.now) result tokens.new.rest.now }
    {
        match begun {
            Some(name) => self.level.assigned(tokens, name),
            None => self.fresh_statement(tokens),
        }
    }
}
