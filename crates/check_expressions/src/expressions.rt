//! Expressions, operand by operand.
ghost use Rattle.std.specs.Prelude.{option_map};
ghost use Rattle.std.specs.Option.{option_copied};
ghost use Rattle.mesa_types.specs.Plain.{expr};
ghost use Rattle.syntax_trees.specs.PlainSyntax as plain;
ghost use Rattle.syntax_trees.specs.Syntax as s;
ghost use Rattle.check_rules.specs.Checking as spec;
ghost use Rattle.check_rules.specs.interface_records.specs.PlainTypes as v;
ghost use Rattle.check_state.specs.Gives.{Gives};
ghost use Rattle.check_state.specs.Views as words;
ghost use Rattle.check_operands.specs.check_selectors.specs.Views as reaching;
ghost use Rattle.check_operands.specs.check_values.specs.Views as values;
ghost use Rattle.syntax_trees.specs.declared.syntax.Brackets.{out-Brackets};
ghost use Rattle.check_expressions.specs.Lists as forms;
ghost use Rattle.check_operands.specs.Lists as lists;
ghost use Rattle.check_operands.specs.Runs as runs;
ghost use Rattle.check_operands.specs.Views as view;

use crate::lists::{bare, none_given, nothing_in, target_of};
use crate::literals::{number_literal, one_word, text};
use crate::operators::{Comparing, comparison, inclusion};
use crate::phrases::Phrases;
use check_operands::check_selectors::{
    Bracketed, Reached, Use, at_index, field, led_to, may_apply, places, settled, value,
};
use check_operands::check_values::{
    Ends, Run, finish, is_truth, letter, not_of, signed, truth, truth_operand,
};
use check_operands::{
    Applied, Arguments, At, Level, Raises, Wanted, aim_for, all_of, applied_to, begun, behind,
    called, counted, ended, first, has_parts, in_order, keyed_fields, level_of, longer_by, made,
    only, ordered, raised, some_of, truth_literal, unnamed, what_is_raised, words_given,
};
use check_rules::{Cause, CheckFault};
use check_state::{Aim, Around, State, Typed, named, size};
use held_trees::{LetGo, both, boxed, pushed};
use mesa_base::{List, Place, Shared};
use mesa_types::{Callee, Exprs, FieldType, Item, ItemKind, TypeTree, TypedExpr};
use std::alloc::Global;
use syntax_trees::syntax::{
    Brackets, Entries, Expr, Interval, Keyed, Left, Operation, Raise, Suffix,
};

/// What checks expressions: it makes trees by `alloc` and asks `phrases` for what catch phrases hold.
pub struct Checker<P> {
    pub alloc: Global,
    pub phrases: P,
}

impl<P: Phrases> Checker<P> {
    /// The value of an expression and its type, for what it aims at.
    #[cycle(expressions)]
    #[tactic(auto, using(syntax_trees::proofs::PlainForms::expr_forms, crate::proofs::Clauses::clauses, crate::proofs::Clauses::construct_nothing))]
    pub fn check(
        &self,
        e: &Expr,
        around: &Around<'_>,
        state: &mut State,
        aim: Aim<'_>,
    ) -> Result<Typed, CheckFault>
        requires { P.ask self.now.phrases }
        ensures { Gives words.typed (spec.check (words.around around.now) (words.aim aim.entry) (plain.expr e.now) (words.state state.old)) result (words.state state.new) }
    {
        match e {
            Expr::Run(left, rest) => {
                let start = first(left.get());
                let left = self.check(left.get(), around, state, Aim::Free(start))?;
                let found = self.run(rest.as_slice(), around, state, start, left)?;
                finish(self.alloc, aim, found)
            }
            Expr::Not(place, e) => {
                let found = self.check(e.get(), around, state, Aim::Free(first(e.get())))?;
                let found = not_of(self.alloc, *place, found)?;
                finish(self.alloc, aim, found)
            }
            Expr::Compare {
                left,
                is_negated,
                relation,
                place,
                right,
            } => {
                let start = first(left.get());
                let left = self.check(left.get(), around, state, Aim::Free(start))?;
                let other = first(right.get());
                let right = self.check(right.get(), around, state, Aim::Free(other));
                let (left, right) = both(left, right)?;
                let operator = Comparing {
                    is_negated: *is_negated,
                    relation: *relation,
                    place: *place,
                };
                comparison(
                    self.alloc,
                    state,
                    aim,
                    operator,
                    (start, left),
                    (other, right),
                )
            }
            Expr::Within {
                value,
                is_negated,
                place,
                interval,
            } => {
                let start = first(value.get());
                let found = self.check(value.get(), around, state, Aim::Free(start))?;
                let (found, ends) = both(found, self.interval(interval, around, state))?;
                let at = (*place, start);
                inclusion(self.alloc, state, aim, *is_negated, at, found, ends)
            }
            Expr::Signed(sign, place, e) => {
                let found = self.check(e.get(), around, state, Aim::Free(first(e.get())))?;
                let found = signed(self.alloc, *sign, *place, found)?;
                finish(self.alloc, aim, found)
            }
            Expr::NumberLiteral(_, n) => number_literal(self.alloc, state, aim, *n),
            Expr::CharacterLiteral(_, code) => one_word(self.alloc, state, aim, letter(*code)),
            Expr::StringLiteral(place, bytes) => {
                text(self.alloc, around, state, aim, *place, bytes.as_slice())
            }
            Expr::Truth(_, is_true) => one_word(self.alloc, state, aim, truth_literal(*is_true)),
            Expr::Parenthesis(_, e) => self.check(e.get(), around, state, aim),
            Expr::Reference(left) => self.reference(left, around, state, aim),
            Expr::Constructor(list) => {
                let (kind, start) = target_of(aim)?;
                let at = (start, list.place);
                match &list.item {
                    Entries::Nothing => nothing_in(kind, at),
                    Entries::InOrder(all) => self.parts(all.as_slice(), around, state, kind, at),
                    Entries::ByKey(all) => {
                        self.keyed_parts(all.as_slice(), around, state, kind, at)
                    }
                }
            }
            Expr::Raised(of) => self.raised(of.get(), around, state, aim),
        }
    }

    /// What stands behind the first operand of a run, which begins at `start`.
    #[cycle(expressions)]
    #[tactic(auto, using(crate::proofs::RunLaws::run_bare, crate::proofs::RunLaws::run_sums, crate::proofs::RunLaws::run_alls, crate::proofs::RunLaws::run_somes))]
    fn run(
        &self,
        all: &[Operation],
        around: &Around<'_>,
        state: &mut State,
        start: Place,
        first: Typed,
    ) -> Result<Typed, CheckFault>
        requires { P.ask self.now.phrases }
        ensures { Gives words.typed (runs.run (words.around around.now) start (words.typed first) (plain.operations all.now) (words.state state.old)) result (words.state state.new) }
    {
        match level_of(all) {
            Level::Bare => Ok(first),
            Level::Sums => self.sums(all, around, state, start, first),
            Level::Alls => {
                let operands = self.truths(all, around, state, first)?;
                Ok(truth(all_of(operands)))
            }
            Level::Somes => {
                let operands = self.truths(all, around, state, first)?;
                Ok(truth(some_of(operands)))
            }
        }
    }

    /// A run of sums or products.
    #[cycle(expressions)]
    fn sums(
        &self,
        all: &[Operation],
        around: &Around<'_>,
        state: &mut State,
        start: Place,
        first: Typed,
    ) -> Result<Typed, CheckFault>
        requires { P.ask self.now.phrases }
        ensures { Gives words.typed (runs.sums (words.around around.now) start (words.typed first) (plain.operations all.now) (words.state state.old)) result (words.state state.new) }
    {
        let mut done = begun(start, first);
        for one in all {
            done = self.and_operator(one, around, state, done)?;
        }
        Ok(ended(self.alloc, done)?)
    }

    /// A run with one operator more.
    #[cycle(expressions)]
    #[tactic(auto, unfolding(check_operands::specs::Runs::sum_turn))]
    fn and_operator(
        &self,
        one: &Operation,
        around: &Around<'_>,
        state: &mut State,
        done: Run,
    ) -> Result<Run, CheckFault>
        requires { P.ask self.now.phrases }
        ensures { Gives view.run (runs.sum_turn (words.around around.now) (view.run done) one.now (words.state state.old)) result (words.state state.new) }
    {
        let start = first(&one.right);
        let right = self.check(&one.right, around, state, Aim::Free(start));
        let (done, right) = both(done, right)?;
        let words = longer_by(&done, &right);
        let more = behind(self.alloc, one.operator, one.place, done, start, right)?;
        let (more, _) = both(more, state.spend(words))?;
        Ok(more)
    }

    /// The operands of AND or OR.
    #[cycle(expressions)]
    fn truths(
        &self,
        all: &[Operation],
        around: &Around<'_>,
        state: &mut State,
        first: Typed,
    ) -> Result<Exprs, CheckFault>
        requires { P.ask self.now.phrases }
        ensures { Gives view.exprs (runs.truths (words.around around.now) (words.typed first) (plain.operations all.now) (words.state state.old)) result (words.state state.new) }
    {
        let mut fits = is_truth(&first.kind);
        let mut done = only(self.alloc, first)?;
        for one in all {
            let (held, right) = both(done, self.operand(one, around, state, fits))?;
            done = pushed(held, right)?;
            fits = true;
        }
        Ok(done)
    }

    /// An operand of AND or OR, whose left operand fits or does not.
    #[cycle(expressions)]
    #[tactic(auto, unfolding(check_operands::specs::Runs::operand))]
    fn operand(
        &self,
        one: &Operation,
        around: &Around<'_>,
        state: &mut State,
        fits: bool,
    ) -> Result<TypedExpr, CheckFault>
        requires { P.ask self.now.phrases }
        ensures { Gives expr (runs.operand (words.around around.now) fits one.now (words.state state.old)) result (words.state state.new) }
    {
        let right = self.check(&one.right, around, state, Aim::Free(first(&one.right)))?;
        truth_operand(fits, one.place, right)
    }

    /// Both ends of an interval.
    #[cycle(expressions)]
    #[tactic(auto, using(syntax_trees::proofs::PlainForms::parts, crate::proofs::Clauses::interval_is))]
    pub fn interval(
        &self,
        interval: &Interval,
        around: &Around<'_>,
        state: &mut State,
    ) -> Result<Ends, CheckFault>
        requires { P.ask self.now.phrases }
        ensures { Gives values.ends (spec.interval (words.around around.now) (plain.interval interval.now) (words.state state.old)) result (words.state state.new) }
    {
        let low_place = first(interval.low.get());
        let low = self.check(interval.low.get(), around, state, Aim::Free(low_place))?;
        let high_place = first(interval.high.get());
        let aim = Aim::Free(high_place);
        let (low, high) = both(low, self.check(interval.high.get(), around, state, aim))?;
        Ok(Ends {
            open_low: interval.is_open_below,
            low_place,
            low,
            high_place,
            high,
            open_high: interval.is_open_above,
        })
    }

    /// The value of a name with what follows it.
    #[cycle(expressions)]
    #[tactic(auto, using(syntax_trees::proofs::PlainForms::parts), unfolding(check_operands::specs::Runs::reference))]
    fn reference(
        &self,
        left: &Left,
        around: &Around<'_>,
        state: &mut State,
        aim: Aim<'_>,
    ) -> Result<Typed, CheckFault>
        requires { P.ask self.now.phrases }
        ensures { Gives words.typed (runs.reference (words.around around.now) (words.aim aim.entry) (plain.left left.now) (words.state state.old)) result (words.state state.new) }
    {
        let meaning = named(self.alloc, around, state, &left.name)?;
        let at = At {
            last: left.name.place,
            reached: led_to(self.alloc, meaning)?,
        };
        let at = self.walk(left.suffixes.as_slice(), around, state, Use::Read, at)?;
        let At { last, reached } = at;
        let found = value(self.alloc, state, aim, last, reached)?;
        finish(self.alloc, aim, found)
    }

    /// Where the suffixes of a name lead, and the place of the last name.
    #[cycle(expressions)]
    pub fn walk(
        &self,
        suffixes: &[Suffix],
        around: &Around<'_>,
        state: &mut State,
        way: Use,
        from: At,
    ) -> Result<At, CheckFault>
        requires { P.ask self.now.phrases }
        ensures { Gives view.at (spec.walk (words.around around.now) (reaching.way way) from.last (reaching.reached from.reached) (plain.suffixes suffixes.now) (words.state state.old)) result (words.state state.new) }
    {
        let mut at = from;
        for suffix in suffixes {
            at = self.suffix(suffix, around, state, way, at)?;
        }
        Ok(at)
    }

    /// Where one suffix leads.
    #[cycle(expressions)]
    #[tactic(auto, using(crate::proofs::Clauses::suffix_field, crate::proofs::Clauses::suffix_applied))]
    fn suffix(
        &self,
        suffix: &Suffix,
        around: &Around<'_>,
        state: &mut State,
        way: Use,
        at: At,
    ) -> Result<At, CheckFault>
        requires { P.ask self.now.phrases }
        ensures { Gives view.at (runs.suffix (words.around around.now) (reaching.way way) (view.at at) suffix.now (words.state state.old)) result (words.state state.new) }
    {
        let At { last, reached } = at;
        match suffix {
            Suffix::Field(name) => {
                let of = settled(self.alloc, reached)?;
                let reached = field(self.alloc, around, state, last, of, name)?;
                Ok(At {
                    last: name.place,
                    reached,
                })
            }
            Suffix::Applied(brackets) => {
                if !may_apply(way, &reached) {
                    reached.let_go();
                    return Err(CheckFault::At(Cause::TypeMismatch, last));
                }
                let of = settled(self.alloc, reached)?;
                let reached = self.apply(brackets, around, state, last, of)?;
                Ok(At { last, reached })
            }
        }
    }

    /// An index, a call or a constructor, at its bracket.
    #[cycle(expressions)]
    #[tactic(auto, using(crate::proofs::Clauses::apply_steps))]
    fn apply(
        &self,
        brackets: &Brackets,
        around: &Around<'_>,
        state: &mut State,
        last: Place,
        of: Reached,
    ) -> Result<Reached, CheckFault>
        requires { P.ask self.now.phrases }
        ensures { Gives reaching.reached (spec.apply (words.around around.now) last (reaching.reached of) (plain.brackets brackets.now) (words.state state.old)) result (words.state state.new) }
    {
        match applied_to(self.alloc, last, of)? {
            Applied::ToIndex(at) => self.index(brackets, around, state, at),
            Applied::ToCall(callee, head) => self.call(brackets, around, state, callee, head),
            Applied::ToConstruct(kind) => {
                self.construct_named(brackets, around, state, last, kind)
            }
        }
    }

    /// The element or byte with an index.
    #[cycle(expressions)]
    #[tactic(auto, using(syntax_trees::proofs::PlainForms::parts), unfolding(check_operands::specs::Runs::index))]
    fn index(
        &self,
        brackets: &Brackets,
        around: &Around<'_>,
        state: &mut State,
        of: Bracketed,
    ) -> Result<Reached, CheckFault>
        requires { P.ask self.now.phrases }
        ensures { Gives reaching.reached (runs.index (words.around around.now) (reaching.bracketed of) (plain.brackets brackets.now) (words.state state.old)) result (words.state state.new) }
    {
        if let Some(catch) = &brackets.catch {
            of.let_go();
            return Err(CheckFault::At(Cause::TypeMismatch, catch.place));
        }
        let (of, found) = both(of, self.one(brackets, around, state))?;
        let (start, number) = found;
        at_index(self.alloc, of, start, number)
    }

    /// The one value in brackets, where it begins and what it is.
    #[cycle(expressions)]
    #[tactic(auto, using(crate::proofs::Clauses::one_alone, crate::proofs::Clauses::one_of_many, crate::proofs::Clauses::one_of_none, crate::proofs::Clauses::one_of_keyed))]
    fn one(
        &self,
        brackets: &Brackets,
        around: &Around<'_>,
        state: &mut State,
    ) -> Result<(Place, Typed), CheckFault>
        requires { P.ask self.now.phrases }
        ensures { Gives view.placed (spec.one (words.around around.now) (out-Brackets brackets.now).place (plain.items (out-Brackets brackets.now).items) (words.state state.old)) result (words.state state.new) }
    {
        match &brackets.items {
            Entries::InOrder(all) => match all.as_slice() {
                [e] => {
                    let found = self.check(e, around, state, Aim::Free(first(e)))?;
                    Ok((first(e), found))
                }
                _ => Err(CheckFault::At(Cause::WrongCount, brackets.place)),
            },
            Entries::Nothing | Entries::ByKey(_) => {
                Err(CheckFault::At(Cause::WrongCount, brackets.place))
            }
        }
    }

    /// A call with its values and its phrase.
    #[cycle(expressions)]
    #[tactic(auto, using(syntax_trees::proofs::PlainForms::parts), unfolding(check_operands::specs::Runs::call))]
    fn call(
        &self,
        brackets: &Brackets,
        around: &Around<'_>,
        state: &mut State,
        callee: Callee,
        head: Shared<Item>,
    ) -> Result<Reached, CheckFault>
        requires { P.ask self.now.phrases }
        ensures { Gives reaching.reached (runs.call (words.around around.now) callee (v.plain_item head) (plain.brackets brackets.now) (words.state state.old)) result (words.state state.new) }
    {
        let words = words_given(head.get());
        let (head, words) = both(head, words)?;
        let (head, _) = both(head, state.spend(words))?;
        let given = self.given(brackets, around, state, head.get().takes.as_slice());
        let (head, given) = both(head, given)?;
        let phrase = self.phrases.phrase(&brackets.catch, around, state);
        let ((given, head), phrase) = both((given, head), phrase)?;
        Ok(called(self.alloc, callee, words, given, phrase, head)?)
    }

    /// A constructor behind the name of its type.
    #[cycle(expressions)]
    #[tactic(auto, using(syntax_trees::proofs::PlainForms::parts), unfolding(check_operands::specs::Runs::construct_named))]
    fn construct_named(
        &self,
        brackets: &Brackets,
        around: &Around<'_>,
        state: &mut State,
        last: Place,
        kind: TypeTree,
    ) -> Result<Reached, CheckFault>
        requires { P.ask self.now.phrases }
        ensures { Gives reaching.reached (runs.construct_named (words.around around.now) (v.plain kind) last (plain.brackets brackets.now) (words.state state.old)) result (words.state state.new) }
    {
        let fits = has_parts(&kind, last);
        let (kind, _) = both(kind, fits)?;
        if let Some(catch) = &brackets.catch {
            kind.let_go();
            return Err(CheckFault::At(Cause::TypeMismatch, catch.place));
        }
        let found = self.built(brackets, around, state, &kind, last);
        let (kind, found) = both(kind, found)?;
        Ok(Reached::Value(0, found.into_value(), kind))
    }

    /// A record of all its fields or an array of all its elements, in brackets; any other type is refused at `last`.
    #[cycle(expressions)]
    #[tactic(auto, using(crate::proofs::Clauses::construct_nothing))]
    fn built(
        &self,
        brackets: &Brackets,
        around: &Around<'_>,
        state: &mut State,
        kind: &TypeTree,
        last: Place,
    ) -> Result<Typed, CheckFault>
        requires { P.ask self.now.phrases }
        ensures { Gives words.typed (spec.construct (words.around around.now) (v.plain kind.now) last (out-Brackets brackets.now).place (plain.items (out-Brackets brackets.now).items) (words.state state.old)) result (words.state state.new) }
    {
        let at = (last, brackets.place);
        match &brackets.items {
            Entries::Nothing => nothing_in(kind, at),
            Entries::InOrder(all) => self.parts(all.as_slice(), around, state, kind, at),
            Entries::ByKey(all) => self.keyed_parts(all.as_slice(), around, state, kind, at),
        }
    }

    /// A constructor of values in order.
    #[cycle(expressions)]
    #[tactic(auto, using(crate::proofs::ListLaws::construct_ordered))]
    fn parts(
        &self,
        all: &[Expr],
        around: &Around<'_>,
        state: &mut State,
        kind: &TypeTree,
        at: (Place, Place),
    ) -> Result<Typed, CheckFault>
        requires { P.ask self.now.phrases }
        ensures { Gives words.typed (spec.construct (words.around around.now) (v.plain kind.now) at.0 at.1 (s.InOrder (plain.exprs all.now)) (words.state state.old)) result (words.state state.new) }
    {
        let (count, wanted) = ordered(kind, at.0)?;
        counted(state, kind, at.1, all.len(), count)?;
        let values = self.values(all, around, state, wanted)?;
        Ok(made(self.alloc, kind, in_order(self.alloc, values))?)
    }

    /// A constructor of values with keys.
    #[cycle(expressions)]
    #[tactic(auto, using(crate::proofs::ListLaws::construct_keyed))]
    fn keyed_parts(
        &self,
        all: &[Keyed<Expr>],
        around: &Around<'_>,
        state: &mut State,
        kind: &TypeTree,
        at: (Place, Place),
    ) -> Result<Typed, CheckFault>
        requires { P.ask self.now.phrases }
        ensures { Gives words.typed (spec.construct (words.around around.now) (v.plain kind.now) at.0 at.1 (s.ByKey (plain.keyed_exprs all.now)) (words.state state.old)) result (words.state state.new) }
    {
        let fields = keyed_fields(kind, at)?;
        let Some(places) = places(self.alloc, fields, all)? else {
            return Err(CheckFault::At(Cause::WrongCount, at.1));
        };
        let words = size(kind)?;
        state.spend(words)?;
        let values = self.keyed(
            all,
            around,
            state,
            Wanted::Placed(fields, places.as_slice()),
        )?;
        Ok(made(self.alloc, kind, Arguments { places, values })?)
    }

    /// The values of parameters, results or fields, at the bracket.
    #[tactic(auto, using(crate::proofs::Clauses::arguments_nothing))]
    pub fn arguments(
        &self,
        items: &Entries<Expr>,
        around: &Around<'_>,
        state: &mut State,
        fields: &[FieldType],
        place: Place,
    ) -> Result<Arguments, CheckFault>
        requires { P.ask self.now.phrases }
        ensures { Gives view.arguments (spec.arguments (words.around around.now) (words.fields fields.now) place (plain.items items.now) (words.state state.old)) result (words.state state.new) }
    {
        match items {
            Entries::Nothing => none_given(self.alloc, fields, place),
            Entries::InOrder(all) => self.arguments_in_order(
                all.as_slice(),
                around,
                state,
                fields,
                place,
            ),
            Entries::ByKey(all) => self.arguments_by_key(
                all.as_slice(),
                around,
                state,
                fields,
                place,
            ),
        }
    }

    /// The values of parameters in brackets.
    #[cycle(expressions)]
    #[tactic(auto, using(crate::proofs::Clauses::arguments_nothing))]
    fn given(
        &self,
        brackets: &Brackets,
        around: &Around<'_>,
        state: &mut State,
        fields: &[FieldType],
    ) -> Result<Arguments, CheckFault>
        requires { P.ask self.now.phrases }
        ensures { Gives view.arguments (spec.arguments (words.around around.now) (words.fields fields.now) (out-Brackets brackets.now).place (plain.items (out-Brackets brackets.now).items) (words.state state.old)) result (words.state state.new) }
    {
        let place = brackets.place;
        match &brackets.items {
            Entries::Nothing => none_given(self.alloc, fields, place),
            Entries::InOrder(all) => self.arguments_in_order(
                all.as_slice(),
                around,
                state,
                fields,
                place,
            ),
            Entries::ByKey(all) => self.arguments_by_key(
                all.as_slice(),
                around,
                state,
                fields,
                place,
            ),
        }
    }

    /// Values of parameters in order.
    #[cycle(expressions)]
    fn arguments_in_order(
        &self,
        all: &[Expr],
        around: &Around<'_>,
        state: &mut State,
        fields: &[FieldType],
        place: Place,
    ) -> Result<Arguments, CheckFault>
        requires { P.ask self.now.phrases }
        ensures { Gives view.arguments (spec.arguments (words.around around.now) (words.fields fields.now) place (s.InOrder (plain.exprs all.now)) (words.state state.old)) result (words.state state.new) }
    {
        if all.len() != fields.len() {
            return Err(CheckFault::At(Cause::WrongCount, place));
        }
        let values = self.values(all, around, state, Wanted::Each(fields))?;
        Ok(in_order(self.alloc, values))
    }

    /// Values of parameters with keys.
    #[cycle(expressions)]
    #[tactic(auto, using(crate::proofs::ListLaws::arguments_keyed))]
    fn arguments_by_key(
        &self,
        all: &[Keyed<Expr>],
        around: &Around<'_>,
        state: &mut State,
        fields: &[FieldType],
        place: Place,
    ) -> Result<Arguments, CheckFault>
        requires { P.ask self.now.phrases }
        ensures { Gives view.arguments (spec.arguments (words.around around.now) (words.fields fields.now) place (s.ByKey (plain.keyed_exprs all.now)) (words.state state.old)) result (words.state state.new) }
    {
        let Some(places) = places(self.alloc, fields, all)? else {
            return Err(CheckFault::At(Cause::WrongCount, place));
        };
        let wanted = Wanted::Placed(fields, places.as_slice());
        let values = self.keyed(all, around, state, wanted)?;
        Ok(Arguments { places, values })
    }

    /// Values in order, each for its type.
    #[cycle(expressions)]
    fn values(
        &self,
        all: &[Expr],
        around: &Around<'_>,
        state: &mut State,
        wanted: Wanted<'_>,
    ) -> Result<Exprs, CheckFault>
        requires { P.ask self.now.phrases }
        ensures { Gives view.exprs (lists.values (words.around around.now) (view.wanted wanted.entry) all.now (words.state state.old)) result (words.state state.new) }
    {
        let mut done = List::new(self.alloc);
        for e in all {
            let kind = wanted.at(done.len());
            let (held, value) = both(done, self.value_for(e, around, state, kind))?;
            done = pushed(held, value)?;
        }
        Ok(done)
    }

    /// Values with keys, each for its type.
    #[cycle(expressions)]
    fn keyed(
        &self,
        all: &[Keyed<Expr>],
        around: &Around<'_>,
        state: &mut State,
        wanted: Wanted<'_>,
    ) -> Result<Exprs, CheckFault>
        requires { P.ask self.now.phrases }
        ensures { Gives view.exprs (lists.keyed (words.around around.now) (view.wanted wanted.entry) all.now (words.state state.old)) result (words.state state.new) }
    {
        let mut done = List::new(self.alloc);
        for one in all {
            let kind = wanted.at(done.len());
            let (held, value) = both(done, self.value_for(&one.item, around, state, kind))?;
            done = pushed(held, value)?;
        }
        Ok(done)
    }

    /// A value that is given to a target of this type.
    #[cycle(expressions)]
    #[tactic(auto, unfolding(check_operands::specs::Lists::value_for))]
    fn value_for(
        &self,
        e: &Expr,
        around: &Around<'_>,
        state: &mut State,
        kind: Option<&TypeTree>,
    ) -> Result<TypedExpr, CheckFault>
        requires { P.ask self.now.phrases }
        ensures { Gives expr (lists.value_for (words.around around.now) (option_map v.plain (option_copied kind.entry)) (plain.expr e.now) (words.state state.old)) result (words.state state.new) }
    {
        let aim = aim_for(kind, first(e));
        let found = self.check(e, around, state, aim)?;
        Ok(found.into_value())
    }

    /// The value of a raise.
    #[cycle(expressions)]
    #[tactic(auto, unfolding(check_operands::specs::Runs::raised))]
    fn raised(
        &self,
        of: &Raise,
        around: &Around<'_>,
        state: &mut State,
        aim: Aim<'_>,
    ) -> Result<Typed, CheckFault>
        requires { P.ask self.now.phrases }
        ensures { Gives words.typed (runs.raised (words.around around.now) (words.aim aim.entry) (plain.raise of.now) (words.state state.old)) result (words.state state.new) }
    {
        let at = self.raise(of, around, state)?;
        let At { last, reached } = at;
        let found = value(self.alloc, state, aim, last, reached)?;
        finish(self.alloc, aim, found)
    }

    /// Where a raise begins, and what it gave.
    #[cycle(expressions)]
    #[tactic(auto, using(syntax_trees::proofs::PlainForms::raise_forms, crate::proofs::Clauses::raise_signal, crate::proofs::Clauses::raise_error, crate::proofs::Clauses::raise_unnamed, crate::proofs::Clauses::with_none, crate::proofs::Clauses::with_some))]
    pub fn raise(
        &self,
        of: &Raise,
        around: &Around<'_>,
        state: &mut State,
    ) -> Result<At, CheckFault>
        requires { P.ask self.now.phrases }
        ensures { Gives view.at (spec.raise (words.around around.now) (plain.raise of.now) (words.state state.old)) result (words.state state.new) }
    {
        match of {
            Raise::SignalRaise(place, name, brackets) => {
                let what = what_is_raised(self.alloc, around, state, ItemKind::Signal, name)?;
                match brackets {
                    None => bare(self.alloc, state, *place, what),
                    Some(brackets) => self.full_raise(brackets, around, state, *place, what),
                }
            }
            Raise::ErrorRaise(place, name, brackets) => {
                let what = what_is_raised(self.alloc, around, state, ItemKind::Error, name)?;
                match brackets {
                    None => bare(self.alloc, state, *place, what),
                    Some(brackets) => self.full_raise(brackets, around, state, *place, what),
                }
            }
            Raise::UnnamedError(place) => {
                let reached = unnamed(self.alloc)?;
                Ok(At {
                    last: *place,
                    reached,
                })
            }
        }
    }

    /// A raise with the values and the phrase of its brackets.
    #[cycle(expressions)]
    #[tactic(auto, using(syntax_trees::proofs::PlainForms::parts), unfolding(check_operands::specs::Lists::full_raise))]
    fn full_raise(
        &self,
        brackets: &Brackets,
        around: &Around<'_>,
        state: &mut State,
        place: Place,
        what: Raises,
    ) -> Result<At, CheckFault>
        requires { P.ask self.now.phrases }
        ensures { Gives view.at (forms.at_place place (lists.full_raise (words.around around.now) (view.raises what) (plain.brackets brackets.now)) (words.state state.old)) result (words.state state.new) }
    {
        let words = words_given(what.head.get());
        let (what, words) = both(what, words)?;
        let (what, _) = both(what, state.spend(words))?;
        let given = self.given(brackets, around, state, what.head.get().takes.as_slice());
        let (what, given) = both(what, given)?;
        let phrase = self.phrases.phrase(&brackets.catch, around, state);
        let ((given, what), phrase) = both((given, what), phrase)?;
        let reached = raised(self.alloc, what, words, given, phrase)?;
        Ok(At {
            last: place,
            reached,
        })
    }
}
