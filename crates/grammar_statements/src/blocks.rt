//! Blocks and the declarations in them.

ghost use Rattle.std.specs.Prelude.{◌≡◌};
ghost use Rattle.token_cursor.specs.Running.{Reads, skip};
ghost use Rattle.token_cursor.specs.Parsing.{and_then, need, pure, repeat};
ghost use Rattle.grammar_rules.specs.ReadStatements.{nested};
ghost use Rattle.grammar_rules.specs.ReadStatements as spec;
ghost use Rattle.syntax_trees.specs.declared.syntax.Statement.TheVariants as s;
ghost use Rattle.grammar_statements.specs.ReadTails.{last_of};
ghost use Rattle.grammar_statements.specs.ReadTails as tails;
ghost use Rattle.grammar_statements.specs.ReadTurns.{ReadsTurn};

use crate::nesting::StatementParser;
use crate::turns::Turn;
use grammar_expressions::NestedParsers;
use grammar_expressions::grammar_tokens::begins::declares;
use grammar_rules::Begun;
use held_trees::{LetGo, both, pushed};
use mesa_base::{Identifier, List, Place};
use mesa_lexer::{Mark, Word};
use syntax_trees::syntax::{
    Block, Labeled, Local, Locals, PlainItem, Statement, Statements, TypeExp,
};
use token_cursor::naming::names_from;
use token_cursor::{Cursor, Stopped};

/// With what a block ends: END, or a brace.
#[derive(Clone, Copy)]
pub enum BlockEnd {
    ByWord,
    ByBrace,
}

/// Takes the last word or brace of a block, which must come.
#[tactic(auto)]
fn need_end(tokens: &mut Cursor<'_>, end: BlockEnd) -> Result<Place, Stopped>
    ensures { Reads (need (last_of end) tokens.old.rest.now) result tokens.new.rest.now }
{
    match end {
        BlockEnd::ByWord => tokens.need_word(Word::EndWord),
        BlockEnd::ByBrace => tokens.need_mark(Mark::RightBrace),
    }
}

impl<N: NestedParsers> StatementParser<N> {
    /// The value of a variable of this type.
    #[tactic(auto, unfolding(crate::specs::ReadTails::initial))]
    fn initial(&self, tokens: &mut Cursor<'_>, of: TypeExp) -> Result<PlainItem, Stopped>
        requires { N.parse_at self.now.level.nested self.now.level.depth }
        ensures { Reads (tails.initial (nested self.now.level.depth) of tokens.old.rest.now) result tokens.new.rest.now }
    {
        let (of, value) = both(of, self.level.expr(tokens, Begun::Fresh))?;
        Ok(PlainItem::Initial(of, value))
    }

    /// The value of a constant of this type.
    #[tactic(auto, unfolding(crate::specs::ReadTails::fixed))]
    fn fixed(&self, tokens: &mut Cursor<'_>, of: TypeExp) -> Result<PlainItem, Stopped>
        requires { N.parse_at self.now.level.nested self.now.level.depth }
        ensures { Reads (tails.fixed (nested self.now.level.depth) of tokens.old.rest.now) result tokens.new.rest.now }
    {
        let (of, value) = both(of, self.level.expr(tokens, Begun::Fresh))?;
        Ok(PlainItem::Constant(of, value))
    }

    /// What stands behind the type of a variable or constant.
    #[tactic(auto, using(token_cursor::proofs::Choosing::choose_none, token_cursor::proofs::Choosing::choose_some), unfolding(grammar_rules::specs::ReadStatements::valued, crate::specs::ReadTails::initial, crate::specs::ReadTails::fixed))]
    fn valued(&self, tokens: &mut Cursor<'_>, of: TypeExp) -> Result<PlainItem, Stopped>
        requires { N.parse_at self.now.level.nested self.now.level.depth }
        ensures { Reads (spec.valued (nested self.now.level.depth) of tokens.old.rest.now) result tokens.new.rest.now }
    {
        if let Some(_) = tokens.takes_mark(Mark::Arrow) {
            return self.initial(tokens, of);
        }
        match tokens.takes_mark(Mark::Equal) {
            Some(_) => self.fixed(tokens, of),
            None => Ok(PlainItem::Variable(of)),
        }
    }

    #[tactic(auto, unfolding(grammar_rules::specs::ReadStatements::type_is))]
    fn type_is(&self, tokens: &mut Cursor<'_>) -> Result<PlainItem, Stopped>
        requires { N.parse_at self.now.level.nested self.now.level.depth }
        ensures { Reads (spec.type_is (nested self.now.level.depth) tokens.old.rest.now) result tokens.new.rest.now }
    {
        tokens.need_mark(Mark::Equal)?;
        let is = self.level.type_exp(tokens, None)?;
        Ok(PlainItem::TypeIs(is))
    }

    #[tactic(auto, unfolding(grammar_rules::specs::ReadStatements::typed))]
    fn typed(&self, tokens: &mut Cursor<'_>) -> Result<PlainItem, Stopped>
        requires { N.parse_at self.now.level.nested self.now.level.depth }
        ensures { Reads (spec.typed (nested self.now.level.depth) tokens.old.rest.now) result tokens.new.rest.now }
    {
        let of = self.level.type_exp(tokens, None)?;
        self.valued(tokens, of)
    }

    /// What stands behind the names of a type, a variable or a constant and their colon.
    #[tactic(auto, using(token_cursor::proofs::Choosing::choose_none, token_cursor::proofs::Choosing::choose_some), unfolding(grammar_rules::specs::ReadStatements::plain))]
    pub fn plain(&self, tokens: &mut Cursor<'_>) -> Result<PlainItem, Stopped>
        requires { N.parse_at self.now.level.nested self.now.level.depth }
        ensures { Reads (spec.plain (nested self.now.level.depth) tokens.old.rest.now) result tokens.new.rest.now }
    {
        match tokens.takes_word(Word::TypeWord) {
            Some(_) => self.type_is(tokens),
            None => self.typed(tokens),
        }
    }

    /// A declaration, whose first name was taken.
    #[tactic(auto, unfolding(grammar_rules::specs::ReadStatements::local))]
    fn local(&self, tokens: &mut Cursor<'_>, first: Identifier) -> Result<Local, Stopped>
        requires { N.parse_at self.now.level.nested self.now.level.depth }
        ensures { Reads (spec.local (nested self.now.level.depth) first tokens.old.rest.now) result tokens.new.rest.now }
    {
        let labels = names_from(self.level.alloc, tokens, first)?;
        let (labels, _) = both(labels, tokens.need_mark(Mark::Colon))?;
        let (labels, item) = both(labels, self.plain(tokens))?;
        let ((labels, item), _) = both((labels, item), tokens.need_mark(Mark::Semicolon))?;
        Ok(Labeled { labels, item })
    }

    /// The statements behind these declarations.
    #[tactic(auto, unfolding(grammar_rules::specs::ReadStatements::head_end))]
    fn behind_locals(&self, tokens: &mut Cursor<'_>, all: Locals) -> Result<Turn<Local>, Stopped>
        requires { N.parse_at self.now.level.nested self.now.level.depth }
        ensures { ReadsTurn (spec.head_end (nested self.now.level.depth) all tokens.old.rest.now) result tokens.new.rest.now }
    {
        let (all, statements) = both(all, self.body(tokens))?;
        Ok(Turn::All(all, statements))
    }

    /// A declaration or the statements behind these, whose first name was taken.
    #[tactic(auto, using(token_cursor::proofs::Choosing::when_true, token_cursor::proofs::Choosing::when_false), unfolding(grammar_rules::specs::ReadStatements::head_from))]
    fn named_turn(
        &self,
        tokens: &mut Cursor<'_>,
        all: Locals,
        first: Identifier,
    ) -> Result<Turn<Local>, Stopped>
        requires { N.parse_at self.now.level.nested self.now.level.depth }
        ensures { ReadsTurn (spec.head_from (nested self.now.level.depth) all first tokens.old.rest.now) result tokens.new.rest.now }
    {
        if !declares(tokens) {
            let (all, statements) = both(all, self.stmts(tokens, Some(first)))?;
            return Ok(Turn::All(all, statements));
        }
        let (all, local) = both(all, self.local(tokens, first))?;
        Ok(Turn::More(pushed(all, local)?))
    }

    /// One more declaration behind these, or the statements.
    #[tactic(auto, using(token_cursor::proofs::Choosing::choose_none, token_cursor::proofs::Choosing::choose_some, token_cursor::proofs::Choosing::if_true, token_cursor::proofs::Choosing::if_false), unfolding(grammar_rules::specs::ReadStatements::head_turn))]
    fn turn(&self, tokens: &mut Cursor<'_>, all: Locals) -> Result<Turn<Local>, Stopped>
        requires { N.parse_at self.now.level.nested self.now.level.depth }
        ensures { ReadsTurn (spec.head_turn (nested self.now.level.depth) all tokens.old.rest.now) result tokens.new.rest.now }
    {
        if !self.level.can() {
            return self.behind_locals(tokens, all);
        }
        match tokens.takes_name(self.level.alloc) {
            Ok(Some(first)) => self.named_turn(tokens, all, first),
            Ok(None) => self.behind_locals(tokens, all),
            Err(_) => {
                all.let_go();
                Err(Stopped::Memory)
            }
        }
    }

    /// Further declarations behind these, and the statements behind them.
    #[tactic(auto, using(token_cursor::proofs::Loops::unroll, grammar_rules::proofs::Parts::head_eats))]
    fn locals(
        &self,
        tokens: &mut Cursor<'_>,
        mut all: Locals,
    ) -> Result<(Locals, Statements), Stopped>
        requires { N.parse_at self.now.level.nested self.now.level.depth }
        ensures { Reads (repeat (spec.head_turn (nested self.now.level.depth)) all tokens.old.rest.now) result tokens.new.rest.now }
    {
        'locals: loop {
            match self.turn(tokens, all)? {
                Turn::More(longer) => all = longer,
                Turn::All(all, statements) => return Ok((all, statements)),
            }
        }
    }

    /// A block behind its first word or brace, which stands at the place.
    #[tactic(auto, unfolding(grammar_rules::specs::ReadStatements::block))]
    pub fn block(
        &self,
        tokens: &mut Cursor<'_>,
        end: BlockEnd,
        place: Place,
    ) -> Result<Block, Stopped>
        requires { N.parse_at self.now.level.nested self.now.level.depth }
        ensures { Reads (spec.block (nested self.now.level.depth) (last_of end) place tokens.old.rest.now) result tokens.new.rest.now }
    {
        let enable = self.enabling(tokens)?;
        let first = self.locals(tokens, List::new(self.level.alloc));
        let (enable, (locals, statements)) = both(enable, first)?;
        let held = (enable, (locals, statements));
        let (held, exits) = both(held, self.exit_part(tokens))?;
        let ((held, exits), _) = both((held, exits), need_end(tokens, end))?;
        let (enable, (locals, statements)) = held;
        Ok(Block {
            place,
            enable,
            locals,
            statements,
            exits,
        })
    }

    /// A block as a statement, whose first word or brace comes next and stands at the place.
    #[tactic(auto)]
    pub fn nested_block(
        &self,
        tokens: &mut Cursor<'_>,
        end: BlockEnd,
        place: Place,
    ) -> Result<Statement, Stopped>
        requires { N.parse_at self.now.level.nested self.now.level.depth }
        ensures { Reads (and_then (spec.block (nested self.now.level.depth) (last_of end) place (skip tokens.old.rest.now)) (λ b. pure (s.Nested b))) result tokens.new.rest.now }
    {
        tokens.skip();
        let block = self.block(tokens, end, place)?;
        Ok(Statement::Nested(block))
    }
}
