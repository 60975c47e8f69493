//! Intervals, arms, bracket lists, and names with what follows them.
ghost use Rattle.std.specs.Prelude.{◌≡◌, IfOk};
ghost use Rattle.token_cursor.specs.Parsing.{ended, many};
ghost use Rattle.mesa_lexer.specs.declared.mark.Mark.TheVariants.{Semicolon};
ghost use Rattle.mesa_lexer.specs.declared.token.Kind.TheVariants as k;
ghost use Rattle.grammar_rules.specs.ReadExpressions as spec;
ghost use Rattle.grammar_rules.specs.Grammar as g;
ghost use Rattle.grammar_rules.specs.ReadNested.{begins_arm, comma};
ghost use Rattle.token_cursor.specs.Running.{Reads};
ghost use Rattle.grammar_rules.specs.ReadStatements.{nested};

use crate::nesting::{Level, NestedParsers};
use grammar_rules::Begun;
use grammar_tokens::begins::{begins_arm, begins_expr};
use grammar_tokens::naming::{labels, qname, qname_from};
use grammar_tokens::words_and_marks::{takes_closing, takes_opening, takes_suffixing};
use held_trees::{both, boxed_pair, pushed};
use mesa_base::{Identifier, List, OutOfMemory, Place, Placed};
use mesa_lexer::{Mark, Word};
use std::alloc::Global;
use syntax_trees::syntax::{
    Arm, Arms, Brackets, Entries, Expr, Exprs, Interval, Keyed, ListExpr, Phrase, Raise, Suffix,
    Suffixes,
};
use token_cursor::naming::named;
use token_cursor::{Cursor, Stopped};

#[tactic(auto, using(token_cursor::proofs::Taking::choose_by), unfolding(grammar_rules::specs::ReadExpressions::closed))]
fn closed(tokens: &mut Cursor<'_>) -> Result<bool, Stopped>
    ensures { Reads (spec.closed tokens.old.rest.now) result tokens.new.rest.now }
{
    match takes_closing(tokens) {
        Some((is_open, _)) => Ok(is_open),
        None => Err(Stopped::Unexpected),
    }
}

/// An interval at its bracket, with which ends are open.
fn bounded(
    alloc: Global,
    place: Place,
    is_open: (bool, bool),
    low: Expr,
    high: Expr,
) -> Result<Interval, OutOfMemory>
    ensures { IfOk result (λ made. made ≡ g.interval place is_open.0 low high is_open.1) }
{
    let (low, high) = boxed_pair(alloc, low, high)?;
    Ok(Interval {
        place,
        is_open_below: is_open.0,
        low,
        high,
        is_open_above: is_open.1,
    })
}

impl<N: NestedParsers> Level<N> {
    /// An interval behind its bracket.
    #[tactic(auto, unfolding(grammar_rules::specs::ReadExpressions::bounds))]
    fn bounds(
        &self,
        tokens: &mut Cursor<'_>,
        is_open_below: bool,
        place: Place,
    ) -> Result<Interval, Stopped>
        requires { N.parse_at self.now.nested self.now.depth }
        ensures { Reads (spec.bounds (nested self.now.depth) is_open_below place tokens.old.rest.now) result tokens.new.rest.now }
    {
        let low = self.expr(tokens, Begun::Fresh)?;
        let (low, _) = both(low, tokens.need_mark(Mark::DotDot))?;
        let (low, high) = both(low, self.expr(tokens, Begun::Fresh))?;
        let ((low, high), is_open_above) = both((low, high), closed(tokens))?;
        let ends = (is_open_below, is_open_above);
        Ok(bounded(self.alloc, place, ends, low, high)?)
    }

    /// An interval, with its brackets.
    #[tactic(auto, using(token_cursor::proofs::Choosing::choose_none, token_cursor::proofs::Choosing::choose_some), unfolding(grammar_rules::specs::ReadExpressions::interval))]
    pub fn interval(&self, tokens: &mut Cursor<'_>) -> Result<Interval, Stopped>
        requires { N.parse_at self.now.nested self.now.depth }
        ensures { Reads (spec.interval (nested self.now.depth) tokens.old.rest.now) result tokens.new.rest.now }
    {
        match takes_opening(tokens) {
            Some((is_open, place)) => self.bounds(tokens, is_open, place),
            None => Err(Stopped::Unexpected),
        }
    }

    /// An arm of a catch phrase.
    #[tactic(auto, unfolding(grammar_rules::specs::ReadExpressions::arm))]
    pub fn arm(&self, tokens: &mut Cursor<'_>) -> Result<Arm, Stopped>
        requires { N.parse_at self.now.nested self.now.depth }
        ensures { Reads (spec.arm (nested self.now.depth) tokens.old.rest.now) result tokens.new.rest.now }
    {
        let labels = labels(self.alloc, tokens)?;
        let (labels, _) = both(labels, tokens.need_mark(Mark::DoubleArrow))?;
        let (labels, body) = both(labels, self.stmt(tokens, None))?;
        Ok(Arm { labels, body })
    }

    #[tactic(auto, using(token_cursor::proofs::Taking::ended_by, grammar_rules::proofs::Parts::arms_eats))]
    fn more_arms(&self, tokens: &mut Cursor<'_>, mut all: Arms) -> Result<Arms, Stopped>
        requires { N.parse_at self.now.nested self.now.depth }
        ensures { Reads (ended (k.Mark Semicolon) begins_arm (spec.arms_step (nested self.now.depth)) all tokens.old.rest.now) result tokens.new.rest.now }
    {
        'arms: while tokens.takes_mark(Mark::Semicolon).is_some() {
            if !begins_arm(tokens) {
                break;
            }
            let (held, arm) = both(all, self.arm(tokens))?;
            all = pushed(held, arm)?;
        }
        Ok(all)
    }

    /// Arms with semicolons between; one may follow the last.
    #[tactic(auto, unfolding(grammar_rules::specs::ReadExpressions::arm_list))]
    pub fn arm_list(&self, tokens: &mut Cursor<'_>) -> Result<Arms, Stopped>
        requires { N.parse_at self.now.nested self.now.depth }
        ensures { Reads (spec.arm_list (nested self.now.depth) tokens.old.rest.now) result tokens.new.rest.now }
    {
        let first = self.arm(tokens)?;
        let all = pushed(List::new(self.alloc), first)?;
        self.more_arms(tokens, all)
    }

    /// A catch phrase in brackets, if there is one.
    #[tactic(auto, using(token_cursor::proofs::Choosing::choose_none, token_cursor::proofs::Choosing::choose_some), unfolding(grammar_rules::specs::ReadExpressions::catch))]
    fn catch(&self, tokens: &mut Cursor<'_>) -> Result<Option<Phrase>, Stopped>
        requires { N.parse_at self.now.nested self.now.depth }
        ensures { Reads (spec.catch (nested self.now.depth) tokens.old.rest.now) result tokens.new.rest.now }
    {
        match tokens.takes_mark(Mark::Bang) {
            Some(place) => {
                let item = self.arm_list(tokens)?;
                Ok(Some(Placed { place, item }))
            }
            None => Ok(None),
        }
    }

    #[tactic(auto, using(token_cursor::proofs::Taking::many_by, grammar_rules::proofs::Parts::exprs_eats))]
    fn more_exprs(&self, tokens: &mut Cursor<'_>, mut all: Exprs) -> Result<Exprs, Stopped>
        requires { N.parse_at self.now.nested self.now.depth }
        ensures { Reads (many comma (spec.exprs_step (nested self.now.depth)) all tokens.old.rest.now) result tokens.new.rest.now }
    {
        'exprs: while tokens.takes_mark(Mark::Comma).is_some() {
            let (held, item) = both(all, self.expr(tokens, Begun::Fresh))?;
            all = pushed(held, item)?;
        }
        Ok(all)
    }

    #[tactic(auto, unfolding(grammar_rules::specs::ReadExpressions::in_order))]
    fn in_order(&self, tokens: &mut Cursor<'_>, begun: Begun) -> Result<Entries<Expr>, Stopped>
        requires { N.parse_at self.now.nested self.now.depth }
        ensures { Reads (spec.in_order (nested self.now.depth) begun tokens.old.rest.now) result tokens.new.rest.now }
    {
        let first = self.expr(tokens, begun)?;
        let all = pushed(List::new(self.alloc), first)?;
        let all = self.more_exprs(tokens, all)?;
        Ok(Entries::InOrder(all))
    }

    /// These values with one more and its key, behind its comma.
    fn key(
        &self,
        tokens: &mut Cursor<'_>,
        all: List<Keyed<Expr>>,
        place: Place,
    ) -> Result<List<Keyed<Expr>>, Stopped>
        requires { N.parse_at self.now.nested self.now.depth }
        ensures { Reads (spec.keys_step (nested self.now.depth) all tt place tokens.old.rest.now) result tokens.new.rest.now }
    {
        let (all, key) = both(all, named(self.alloc, tokens))?;
        let ((all, key), _) = both((all, key), tokens.need_mark(Mark::Colon))?;
        let ((all, key), item) = both((all, key), self.expr(tokens, Begun::Fresh))?;
        Ok(pushed(all, Keyed { key, item })?)
    }

    #[tactic(auto, using(token_cursor::proofs::Taking::many_by, grammar_rules::proofs::Parts::keys_eats))]
    fn more_keys(
        &self,
        tokens: &mut Cursor<'_>,
        mut all: List<Keyed<Expr>>,
    ) -> Result<List<Keyed<Expr>>, Stopped>
        requires { N.parse_at self.now.nested self.now.depth }
        ensures { Reads (many comma (spec.keys_step (nested self.now.depth)) all tokens.old.rest.now) result tokens.new.rest.now }
    {
        'keys: while let Some(place) = tokens.takes_mark(Mark::Comma) {
            all = self.key(tokens, all, place)?;
        }
        Ok(all)
    }

    /// Values with keys, of which the first and its colon were taken.
    #[tactic(auto, unfolding(grammar_rules::specs::ReadExpressions::by_key))]
    fn by_key(&self, tokens: &mut Cursor<'_>, key: Identifier) -> Result<Entries<Expr>, Stopped>
        requires { N.parse_at self.now.nested self.now.depth }
        ensures { Reads (spec.by_key (nested self.now.depth) key tokens.old.rest.now) result tokens.new.rest.now }
    {
        let (key, item) = both(key, self.expr(tokens, Begun::Fresh))?;
        let all = pushed(List::new(self.alloc), Keyed { key, item })?;
        let all = self.more_keys(tokens, all)?;
        Ok(Entries::ByKey(all))
    }

    /// Values of which the first name was taken: a key, or what an expression begins with.
    #[tactic(auto, using(token_cursor::proofs::Choosing::choose_none, token_cursor::proofs::Choosing::choose_some), unfolding(grammar_rules::specs::ReadExpressions::after_name))]
    fn after_name(
        &self,
        tokens: &mut Cursor<'_>,
        name: Identifier,
    ) -> Result<Entries<Expr>, Stopped>
        requires { N.parse_at self.now.nested self.now.depth }
        ensures { Reads (spec.after_name (nested self.now.depth) name tokens.old.rest.now) result tokens.new.rest.now }
    {
        match tokens.takes_mark(Mark::Colon) {
            Some(_) => self.by_key(tokens, name),
            None => self.in_order(tokens, Begun::AtName(name)),
        }
    }

    #[tactic(auto, using(token_cursor::proofs::Choosing::when_true, token_cursor::proofs::Choosing::when_false), unfolding(grammar_rules::specs::ReadExpressions::unkeyed))]
    fn unkeyed(&self, tokens: &mut Cursor<'_>) -> Result<Entries<Expr>, Stopped>
        requires { N.parse_at self.now.nested self.now.depth }
        ensures { Reads (spec.unkeyed (nested self.now.depth) tokens.old.rest.now) result tokens.new.rest.now }
    {
        if !begins_expr(tokens) {
            return Ok(Entries::Nothing);
        }
        self.in_order(tokens, Begun::Fresh)
    }

    /// What stands in brackets before a catch phrase. The depth is tested before a name is taken, since an expression too
    /// deep stops at its first token.
    #[tactic(auto, using(token_cursor::proofs::Choosing::choose_none, token_cursor::proofs::Choosing::choose_some, token_cursor::proofs::Choosing::if_true, token_cursor::proofs::Choosing::if_false), unfolding(grammar_rules::specs::ReadExpressions::args))]
    fn args(&self, tokens: &mut Cursor<'_>) -> Result<Entries<Expr>, Stopped>
        requires { N.parse_at self.now.nested self.now.depth }
        ensures { Reads (spec.args (nested self.now.depth) tokens.old.rest.now) result tokens.new.rest.now }
    {
        if !self.can() {
            return self.unkeyed(tokens);
        }
        match tokens.takes_name(self.alloc)? {
            Some(name) => self.after_name(tokens, name),
            None => self.unkeyed(tokens),
        }
    }

    /// A list of values behind its bracket.
    #[tactic(auto, unfolding(grammar_rules::specs::ReadExpressions::list))]
    pub fn list(&self, tokens: &mut Cursor<'_>, place: Place) -> Result<ListExpr, Stopped>
        requires { N.parse_at self.now.nested self.now.depth }
        ensures { Reads (spec.list (nested self.now.depth) place tokens.old.rest.now) result tokens.new.rest.now }
    {
        let item = self.args(tokens)?;
        let (item, _) = both(item, tokens.need_mark(Mark::RightBracket))?;
        Ok(Placed { place, item })
    }

    /// A list of values in brackets, if a bracket comes next.
    #[tactic(auto, using(token_cursor::proofs::Choosing::choose_none, token_cursor::proofs::Choosing::choose_some), unfolding(grammar_rules::specs::ReadExpressions::list_option))]
    pub fn list_option(&self, tokens: &mut Cursor<'_>) -> Result<Option<ListExpr>, Stopped>
        requires { N.parse_at self.now.nested self.now.depth }
        ensures { Reads (spec.list_option (nested self.now.depth) tokens.old.rest.now) result tokens.new.rest.now }
    {
        match tokens.takes_mark(Mark::LeftBracket) {
            Some(place) => Ok(Some(self.list(tokens, place)?)),
            None => Ok(None),
        }
    }

    #[tactic(auto, unfolding(grammar_rules::specs::ReadExpressions::brackets))]
    fn brackets(&self, tokens: &mut Cursor<'_>, place: Place) -> Result<Brackets, Stopped>
        requires { N.parse_at self.now.nested self.now.depth }
        ensures { Reads (spec.brackets (nested self.now.depth) place tokens.old.rest.now) result tokens.new.rest.now }
    {
        let items = self.args(tokens)?;
        let (items, catch) = both(items, self.catch(tokens))?;
        let ((items, catch), _) = both((items, catch), tokens.need_mark(Mark::RightBracket))?;
        Ok(Brackets {
            place,
            items,
            catch,
        })
    }

    #[tactic(auto, using(token_cursor::proofs::Choosing::choose_none, token_cursor::proofs::Choosing::choose_some), unfolding(grammar_rules::specs::ReadExpressions::brackets_option))]
    fn brackets_option(&self, tokens: &mut Cursor<'_>) -> Result<Option<Brackets>, Stopped>
        requires { N.parse_at self.now.nested self.now.depth }
        ensures { Reads (spec.brackets_option (nested self.now.depth) tokens.old.rest.now) result tokens.new.rest.now }
    {
        match tokens.takes_mark(Mark::LeftBracket) {
            Some(place) => Ok(Some(self.brackets(tokens, place)?)),
            None => Ok(None),
        }
    }

    /// A suffix behind its dot or bracket.
    #[tactic(auto, unfolding(grammar_rules::specs::ReadExpressions::suffixes_step))]
    fn suffix(
        &self,
        tokens: &mut Cursor<'_>,
        all: Suffixes,
        is_bracket: bool,
        place: Place,
    ) -> Result<Suffixes, Stopped>
        requires { N.parse_at self.now.nested self.now.depth }
        ensures { Reads (spec.suffixes_step (nested self.now.depth) all is_bracket place tokens.old.rest.now) result tokens.new.rest.now }
    {
        if is_bracket {
            let (all, brackets) = both(all, self.brackets(tokens, place))?;
            return Ok(pushed(all, Suffix::Applied(brackets))?);
        }
        let (all, field) = both(all, named(self.alloc, tokens))?;
        Ok(pushed(all, Suffix::Field(field))?)
    }

    #[tactic(auto, using(token_cursor::proofs::Taking::many_by, grammar_rules::proofs::Parts::suffixes_eats))]
    fn more_suffixes(&self, tokens: &mut Cursor<'_>, mut all: Suffixes) -> Result<Suffixes, Stopped>
        requires { N.parse_at self.now.nested self.now.depth }
        ensures { Reads (many spec.suffixing (spec.suffixes_step (nested self.now.depth)) all tokens.old.rest.now) result tokens.new.rest.now }
    {
        'suffixes: while let Some((is_bracket, place)) = takes_suffixing(tokens) {
            all = self.suffix(tokens, all, is_bracket, place)?;
        }
        Ok(all)
    }

    /// What follows a name.
    #[tactic(auto, unfolding(grammar_rules::specs::ReadExpressions::suffixes))]
    pub fn suffixes(&self, tokens: &mut Cursor<'_>) -> Result<Suffixes, Stopped>
        requires { N.parse_at self.now.nested self.now.depth }
        ensures { Reads (spec.suffixes (nested self.now.depth) tokens.old.rest.now) result tokens.new.rest.now }
    {
        self.more_suffixes(tokens, List::new(self.alloc))
    }

    /// ERROR with the name behind it, of which the first part was taken.
    #[tactic(auto, unfolding(grammar_rules::specs::ReadExpressions::error_raise))]
    fn error_raise(
        &self,
        tokens: &mut Cursor<'_>,
        place: Place,
        first: Identifier,
    ) -> Result<Raise, Stopped>
        requires { N.parse_at self.now.nested self.now.depth }
        ensures { Reads (spec.error_raise (nested self.now.depth) place first tokens.old.rest.now) result tokens.new.rest.now }
    {
        let name = qname_from(self.alloc, tokens, first)?;
        let (name, given) = both(name, self.brackets_option(tokens))?;
        Ok(Raise::ErrorRaise(place, name, given))
    }

    #[tactic(auto, unfolding(grammar_rules::specs::ReadExpressions::signal_raise))]
    fn signal_raise(&self, tokens: &mut Cursor<'_>, place: Place) -> Result<Raise, Stopped>
        requires { N.parse_at self.now.nested self.now.depth }
        ensures { Reads (spec.signal_raise (nested self.now.depth) place tokens.old.rest.now) result tokens.new.rest.now }
    {
        let name = qname(self.alloc, tokens)?;
        let (name, given) = both(name, self.brackets_option(tokens))?;
        Ok(Raise::SignalRaise(place, name, given))
    }

    /// A raise of a signal, an error or the unnamed error.
    #[tactic(auto, using(token_cursor::proofs::Choosing::choose_none, token_cursor::proofs::Choosing::choose_some), unfolding(grammar_rules::specs::ReadExpressions::raise))]
    pub fn raise(&self, tokens: &mut Cursor<'_>) -> Result<Raise, Stopped>
        requires { N.parse_at self.now.nested self.now.depth }
        ensures { Reads (spec.raise (nested self.now.depth) tokens.old.rest.now) result tokens.new.rest.now }
    {
        if let Some(place) = tokens.takes_word(Word::SignalWord) {
            return self.signal_raise(tokens, place);
        }
        let Some(place) = tokens.takes_word(Word::ErrorWord) else {
            return Err(Stopped::Unexpected);
        };
        match tokens.takes_name(self.alloc)? {
            Some(first) => self.error_raise(tokens, place, first),
            None => Ok(Raise::UnnamedError(place)),
        }
    }
}
