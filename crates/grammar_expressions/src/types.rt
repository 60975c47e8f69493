//! Types and lists of fields.
ghost use Rattle.std.specs.Prelude.{◌≡◌, IfOk};
ghost use Rattle.token_cursor.specs.Parsing.{many, repeat};
ghost use Rattle.grammar_rules.specs.ReadExpressions as spec;
ghost use Rattle.grammar_rules.specs.ReadNested.{comma};
ghost use Rattle.token_cursor.specs.Running.{Reads};
ghost use Rattle.grammar_rules.specs.ReadStatements.{nested};
ghost use Rattle.grammar_expressions.specs.Tails as tails;

use crate::nesting::{Level, NestedParsers};
use grammar_tokens::begins::begins_interval;
use grammar_tokens::naming::qname_from;
use held_trees::{LetGo, both, boxed_pair, pushed};
use mesa_base::{Identifier, Identifiers, List, OutOfMemory, Place};
use mesa_lexer::{Mark, Word};
use std::alloc::Global;
use syntax_trees::syntax::{FieldList, Labeled, QualifiedName, TypeBase, TypeExp, TypeExps};
use token_cursor::naming::names;
use token_cursor::{Cursor, Stopped};

fn called(alloc: Global, name: &Identifier) -> Result<TypeExp, OutOfMemory>
    ensures { IfOk result (λ found. found ≡ tails.called name.now) }
{
    let first = Identifier {
        name: name.name.copy(alloc)?,
        place: name.place,
    };
    Ok(TypeExp::Called(QualifiedName {
        first,
        second: None,
    }))
}

/// The names, taken for types.
#[tactic(auto, unfolding(grammar_rules::specs::ReadExpressions::called))]
fn all_called(alloc: Global, names: &[Identifier]) -> Result<TypeExps, OutOfMemory>
    ensures { IfOk result (λ all. all ≡ spec.called names.now) }
{
    let mut all = List::new(alloc);
    let mut rest = names;
    'names: while let Some((first, tail)) = rest.split_first() {
        let (held, item) = both(all, called(alloc, first))?;
        all = pushed(held, item)?;
        rest = tail;
    }
    Ok(all)
}

impl<N: NestedParsers> Level<N> {
    /// The base with the interval behind it, or the type that the base is where none follows.
    #[tactic(auto, using(token_cursor::proofs::Choosing::when_true, token_cursor::proofs::Choosing::when_false), unfolding(grammar_rules::specs::ReadExpressions::after_base))]
    fn after_base(
        &self,
        tokens: &mut Cursor<'_>,
        base: TypeBase,
        alone: TypeExp,
    ) -> Result<TypeExp, Stopped>
        requires { N.parse_at self.now.nested self.now.depth }
        ensures { Reads (spec.after_base (nested self.now.depth) base alone tokens.old.rest.now) result tokens.new.rest.now }
    {
        if !begins_interval(tokens) {
            base.let_go();
            return Ok(alone);
        }
        alone.let_go();
        let (base, interval) = both(base, self.interval(tokens))?;
        Ok(TypeExp::Subrange(base, interval))
    }

    /// A type of which the first name was taken.
    #[tactic(auto, using(token_cursor::proofs::Choosing::when_true, token_cursor::proofs::Choosing::when_false), unfolding(grammar_rules::specs::ReadExpressions::type_from, grammar_rules::specs::ReadExpressions::after_base))]
    fn type_from(&self, tokens: &mut Cursor<'_>, first: Identifier) -> Result<TypeExp, Stopped>
        requires { N.parse_at self.now.nested self.now.depth }
        ensures { Reads (spec.type_from (nested self.now.depth) first tokens.old.rest.now) result tokens.new.rest.now }
    {
        let name = qname_from(self.alloc, tokens, first)?;
        if !begins_interval(tokens) {
            return Ok(TypeExp::Called(name));
        }
        let (name, interval) = both(name, self.interval(tokens))?;
        Ok(TypeExp::Subrange(TypeBase::OfName(name), interval))
    }

    /// A type of two words, of which the word LONG was taken.
    #[tactic(auto, using(token_cursor::proofs::Choosing::choose_none, token_cursor::proofs::Choosing::choose_some), unfolding(grammar_rules::specs::ReadExpressions::long_type))]
    fn long_type(&self, tokens: &mut Cursor<'_>, place: Place) -> Result<TypeExp, Stopped>
        ensures { Reads (spec.long_type (nested self.now.depth) place tokens.old.rest.now) result tokens.new.rest.now }
    {
        match tokens.takes_word(Word::IntegerWord) {
            Some(_) => Ok(TypeExp::LongInteger(place)),
            None => {
                tokens.need_word(Word::CardinalWord)?;
                Ok(TypeExp::LongCardinal(place))
            }
        }
    }

    #[tactic(auto, unfolding(grammar_rules::specs::ReadExpressions::enumeration))]
    fn enumeration(&self, tokens: &mut Cursor<'_>, place: Place) -> Result<TypeExp, Stopped>
        requires { N.parse_at self.now.nested self.now.depth }
        ensures { Reads (spec.enumeration (nested self.now.depth) place tokens.old.rest.now) result tokens.new.rest.now }
    {
        let names = names(self.alloc, tokens)?;
        let (names, _) = both(names, tokens.need_mark(Mark::RightBrace))?;
        Ok(TypeExp::Enumeration(place, names))
    }

    #[tactic(auto, unfolding(grammar_rules::specs::ReadExpressions::array))]
    fn array(&self, tokens: &mut Cursor<'_>, place: Place) -> Result<TypeExp, Stopped>
        requires { N.parse_at self.now.nested self.now.depth }
        ensures { Reads (spec.array (nested self.now.depth) place tokens.old.rest.now) result tokens.new.rest.now }
    {
        let index = self.type_exp(tokens, None)?;
        let (index, _) = both(index, tokens.need_word(Word::OfWord))?;
        let (index, element) = both(index, self.type_exp(tokens, None))?;
        let (index, element) = boxed_pair(self.alloc, index, element)?;
        Ok(TypeExp::Array(place, index, element))
    }

    #[tactic(auto, using(token_cursor::proofs::Taking::many_by, crate::proofs::FieldLoops::types_eats))]
    fn more_types(&self, tokens: &mut Cursor<'_>, mut all: TypeExps) -> Result<TypeExps, Stopped>
        requires { N.parse_at self.now.nested self.now.depth }
        ensures { Reads (many comma (spec.types_step (nested self.now.depth)) all tokens.old.rest.now) result tokens.new.rest.now }
    {
        'types: while tokens.takes_mark(Mark::Comma).is_some() {
            let (held, item) = both(all, self.type_exp(tokens, None))?;
            all = pushed(held, item)?;
        }
        Ok(all)
    }

    /// Types without names, of which some were taken.
    #[tactic(auto, unfolding(grammar_rules::specs::ReadExpressions::unnamed, grammar_rules::specs::ReadExpressions::more_types))]
    fn unnamed(&self, tokens: &mut Cursor<'_>, all: TypeExps) -> Result<FieldList, Stopped>
        requires { N.parse_at self.now.nested self.now.depth }
        ensures { Reads (spec.unnamed (nested self.now.depth) all tokens.old.rest.now) result tokens.new.rest.now }
    {
        let (all, item) = both(all, self.type_exp(tokens, None))?;
        let all = pushed(all, item)?;
        let all = self.more_types(tokens, all)?;
        Ok(FieldList::Unnamed(all))
    }

    /// These groups with one more, behind its comma.
    fn group(
        &self,
        tokens: &mut Cursor<'_>,
        all: List<Labeled<Identifiers, TypeExp>>,
        place: Place,
    ) -> Result<List<Labeled<Identifiers, TypeExp>>, Stopped>
        requires { N.parse_at self.now.nested self.now.depth }
        ensures { Reads (spec.groups_step (nested self.now.depth) all tt place tokens.old.rest.now) result tokens.new.rest.now }
    {
        let (all, labels) = both(all, names(self.alloc, tokens))?;
        let ((all, labels), _) = both((all, labels), tokens.need_mark(Mark::Colon))?;
        let ((all, labels), item) = both((all, labels), self.type_exp(tokens, None))?;
        Ok(pushed(all, Labeled { labels, item })?)
    }

    #[tactic(auto, using(token_cursor::proofs::Taking::many_by, grammar_rules::proofs::Parts::groups_eats))]
    fn more_groups(
        &self,
        tokens: &mut Cursor<'_>,
        mut all: List<Labeled<Identifiers, TypeExp>>,
    ) -> Result<List<Labeled<Identifiers, TypeExp>>, Stopped>
        requires { N.parse_at self.now.nested self.now.depth }
        ensures { Reads (many comma (spec.groups_step (nested self.now.depth)) all tokens.old.rest.now) result tokens.new.rest.now }
    {
        'groups: while let Some(place) = tokens.takes_mark(Mark::Comma) {
            all = self.group(tokens, all, place)?;
        }
        Ok(all)
    }

    /// Fields with names, of which the first and their colon were taken.
    #[tactic(auto, unfolding(grammar_rules::specs::ReadExpressions::with_names))]
    fn with_names(&self, tokens: &mut Cursor<'_>, labels: Identifiers) -> Result<FieldList, Stopped>
        requires { N.parse_at self.now.nested self.now.depth }
        ensures { Reads (spec.with_names (nested self.now.depth) labels tokens.old.rest.now) result tokens.new.rest.now }
    {
        let (labels, item) = both(labels, self.type_exp(tokens, None))?;
        let all = pushed(List::new(self.alloc), Labeled { labels, item })?;
        let all = self.more_groups(tokens, all)?;
        Ok(FieldList::WithNames(all))
    }

    /// Types without names: those that are names alone, and one that the last name begins.
    #[tactic(auto, unfolding(grammar_rules::specs::ReadExpressions::types_from, grammar_rules::specs::ReadExpressions::more_types))]
    fn types_from(
        &self,
        tokens: &mut Cursor<'_>,
        before: Identifiers,
        last: Identifier,
    ) -> Result<FieldList, Stopped>
        requires { N.parse_at self.now.nested self.now.depth }
        ensures { Reads (spec.types_from (nested self.now.depth) (record { before = before; last = last }) tokens.old.rest.now) result tokens.new.rest.now }
    {
        let (before, item) = both(before, self.type_exp(tokens, Some(last)))?;
        let called = all_called(self.alloc, before.as_slice());
        before.let_go();
        let (item, all) = both(item, called)?;
        let all = pushed(all, item)?;
        let all = self.more_types(tokens, all)?;
        Ok(FieldList::Unnamed(all))
    }

    /// Names with no comma behind them: a colon shows that they are names of fields.
    #[tactic(auto, using(token_cursor::proofs::Choosing::choose_none, token_cursor::proofs::Choosing::choose_some), unfolding(crate::specs::Tails::decided))]
    fn decided(
        &self,
        tokens: &mut Cursor<'_>,
        before: Identifiers,
        last: Identifier,
    ) -> Result<FieldList, Stopped>
        requires { N.parse_at self.now.nested self.now.depth }
        ensures { Reads (tails.decided (nested self.now.depth) (record { before = before; last = last }) tokens.old.rest.now) result tokens.new.rest.now }
    {
        match tokens.takes_mark(Mark::Colon) {
            Some(_) => {
                let names = pushed(before, last)?;
                self.with_names(tokens, names)
            }
            None => self.types_from(tokens, before, last),
        }
    }

    /// Names that may be those of fields or of types, of which the last was just taken.
    #[tactic(auto, using(token_cursor::proofs::Choosing::choose_none, token_cursor::proofs::Choosing::choose_some, crate::proofs::FieldLoops::undecided_by))]
    fn undecided(
        &self,
        tokens: &mut Cursor<'_>,
        mut before: Identifiers,
        mut last: Identifier,
    ) -> Result<FieldList, Stopped>
        requires { N.parse_at self.now.nested self.now.depth }
        ensures { Reads (repeat (spec.undecided_turn (nested self.now.depth)) (record { before = before; last = last }) tokens.old.rest.now) result tokens.new.rest.now }
    {
        'names: while tokens.takes_mark(Mark::Comma).is_some() {
            before.push(last)?;
            let Some(name) = tokens.takes_name(self.alloc)? else {
                let types = all_called(self.alloc, before.as_slice())?;
                return self.unnamed(tokens, types);
            };
            last = name;
        }
        self.decided(tokens, before, last)
    }

    /// Fields. The depth is tested before a name is taken, since a type too deep stops at its first token.
    #[tactic(auto, using(token_cursor::proofs::Choosing::choose_none, token_cursor::proofs::Choosing::choose_some, token_cursor::proofs::Choosing::if_true, token_cursor::proofs::Choosing::if_false), unfolding(grammar_rules::specs::ReadExpressions::field_list))]
    pub fn field_list(&self, tokens: &mut Cursor<'_>) -> Result<FieldList, Stopped>
        requires { N.parse_at self.now.nested self.now.depth }
        ensures { Reads (spec.field_list (nested self.now.depth) tokens.old.rest.now) result tokens.new.rest.now }
    {
        if !self.can() {
            return self.unnamed(tokens, List::new(self.alloc));
        }
        match tokens.takes_name(self.alloc)? {
            Some(name) => self.undecided(tokens, List::new(self.alloc), name),
            None => self.unnamed(tokens, List::new(self.alloc)),
        }
    }

    #[tactic(auto, unfolding(grammar_rules::specs::ReadExpressions::a_record))]
    fn a_record(&self, tokens: &mut Cursor<'_>, place: Place) -> Result<TypeExp, Stopped>
        requires { N.parse_at self.now.nested self.now.depth }
        ensures { Reads (spec.a_record (nested self.now.depth) place tokens.old.rest.now) result tokens.new.rest.now }
    {
        tokens.need_mark(Mark::LeftBracket)?;
        let fields = self.field_list(tokens)?;
        let (fields, _) = both(fields, tokens.need_mark(Mark::RightBracket))?;
        Ok(TypeExp::Record(place, fields))
    }

    /// A type that begins with no word of a simple type.
    #[tactic(auto, using(token_cursor::proofs::Choosing::choose_none, token_cursor::proofs::Choosing::choose_some), unfolding(crate::specs::Tails::built_type))]
    fn built_type(&self, tokens: &mut Cursor<'_>) -> Result<TypeExp, Stopped>
        requires { N.parse_at self.now.nested self.now.depth }
        ensures { Reads (tails.built_type (nested self.now.depth) tokens.old.rest.now) result tokens.new.rest.now }
    {
        if let Some(place) = tokens.takes_mark(Mark::LeftBrace) {
            return self.enumeration(tokens, place);
        }
        if let Some(place) = tokens.takes_word(Word::ArrayWord) {
            return self.array(tokens, place);
        }
        match tokens.takes_word(Word::RecordWord) {
            Some(place) => self.a_record(tokens, place),
            None => Ok(TypeExp::Subrange(TypeBase::Unsaid, self.interval(tokens)?)),
        }
    }

    /// A type that begins with no name and is no base of an interval.
    #[tactic(auto, using(token_cursor::proofs::Choosing::choose_none, token_cursor::proofs::Choosing::choose_some), unfolding(crate::specs::Tails::other_type, crate::specs::Tails::built_type))]
    fn other_type(&self, tokens: &mut Cursor<'_>) -> Result<TypeExp, Stopped>
        requires { N.parse_at self.now.nested self.now.depth }
        ensures { Reads (tails.other_type (nested self.now.depth) tokens.old.rest.now) result tokens.new.rest.now }
    {
        if let Some(place) = tokens.takes_word(Word::BooleanWord) {
            return Ok(TypeExp::Boolean(place));
        }
        match tokens.takes_word(Word::StringWord) {
            Some(place) => Ok(TypeExp::String(place)),
            None => self.built_type(tokens),
        }
    }

    /// A type that begins with no name.
    #[tactic(auto, using(token_cursor::proofs::Choosing::choose_none, token_cursor::proofs::Choosing::choose_some), unfolding(crate::specs::Tails::nameless_type))]
    fn nameless_type(&self, tokens: &mut Cursor<'_>) -> Result<TypeExp, Stopped>
        requires { N.parse_at self.now.nested self.now.depth }
        ensures { Reads (tails.nameless_type (nested self.now.depth) tokens.old.rest.now) result tokens.new.rest.now }
    {
        if let Some(place) = tokens.takes_word(Word::IntegerWord) {
            return self.after_base(tokens, TypeBase::OfInteger(place), TypeExp::Integer(place));
        }
        if let Some(place) = tokens.takes_word(Word::CardinalWord) {
            return self.after_base(
                tokens,
                TypeBase::OfCardinal(place),
                TypeExp::Cardinal(place),
            );
        }
        if let Some(place) = tokens.takes_word(Word::LongWord) {
            return self.long_type(tokens, place);
        }
        match tokens.takes_word(Word::CharacterWord) {
            Some(place) => self.after_base(
                tokens,
                TypeBase::OfCharacter(place),
                TypeExp::Character(place),
            ),
            None => self.other_type(tokens),
        }
    }

    /// A type, of which nothing was taken.
    #[tactic(auto, using(token_cursor::proofs::Choosing::choose_none, token_cursor::proofs::Choosing::choose_some), unfolding(grammar_rules::specs::ReadExpressions::type_exp, crate::specs::Tails::nameless_type, crate::specs::Tails::other_type))]
    fn fresh_type(&self, tokens: &mut Cursor<'_>) -> Result<TypeExp, Stopped>
        requires { N.parse_at self.now.nested self.now.depth }
        ensures { Reads (spec.type_exp (nested self.now.depth) None tokens.old.rest.now) result tokens.new.rest.now }
    {
        match tokens.takes_name(self.alloc)? {
            Some(name) => self.type_from(tokens, name),
            None => self.nameless_type(tokens),
        }
    }

    /// A type of this level.
    #[tactic(auto, unfolding(grammar_rules::specs::ReadExpressions::type_exp))]
    pub fn any_type(
        &self,
        tokens: &mut Cursor<'_>,
        name: Option<Identifier>,
    ) -> Result<TypeExp, Stopped>
        requires { N.parse_at self.now.nested self.now.depth }
        ensures { Reads (spec.type_exp (nested self.now.depth) name tokens.old.rest.now) result tokens.new.rest.now }
    {
        match name {
            Some(name) => self.type_from(tokens, name),
            None => self.fresh_type(tokens),
        }
    }
}
