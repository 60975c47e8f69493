//! Variables into which is stored, one or several.
ghost use Rattle.std.specs.Prelude.{◌≡◌, [], length, nat_eq, not, true, is_some, OnOk};
ghost use Rattle.mesa_types.specs.Plain as tree;
ghost use Rattle.syntax_trees.specs.PlainSyntax as plain;
ghost use Rattle.check_scopes.specs.Scopes.{with_name};
ghost use Rattle.check_scopes.specs.Shows.{means};
ghost use Rattle.check_rules.specs.Checking as spec;
ghost use Rattle.check_rules.specs.Parts as parts;
ghost use Rattle.interface_records.specs.PlainTypes.{plain_field};
ghost use Rattle.check_rules.specs.Statements as rule;
ghost use Rattle.check_rules.specs.Steps.{only};
ghost use Rattle.check_rules.specs.declared.fault.Cause.TheVariants.{TwiceDeclared, WrongCount};
ghost use Rattle.check_state.specs.Gives.{Gives, GivesOnly};
ghost use Rattle.check_state.specs.Views as words;
ghost use Rattle.check_selectors.specs.Views as reaching;
ghost use Rattle.check_simple_statements.specs.Rules as rules;
ghost use Rattle.check_simple_statements.specs.Spots as known;
ghost use Rattle.check_simple_statements.specs.Views as view;

use crate::spots::{Spot, Spots, past};
use check_expressions::{Checker, Phrases};
use check_operands::At;
use check_rules::{Cause, CheckFault};
use check_scopes::Names;
use check_selectors::check_values::{conversion_for, range_for};
use check_selectors::{Target, Use, led_to, stored};
use check_state::{Around, State, conforms, named, narrow, size};
use held_trees::{LetGo, both, pushed};
use mesa_base::{Identifier, List, Place};
use mesa_types::{
    Conversion, FieldType, Home, Part, Range, Suffixes, Target as TypedTarget, Targets,
};
use std::alloc::Global;
use syntax_trees::syntax::{Entries, Keyed, Left};

/// A variable into which is stored.
#[tactic(auto, using(syntax_trees::proofs::PlainForms::parts, crate::proofs::Clauses::target_is))]
pub fn target<P: Phrases>(
    checker: &Checker<P>,
    left: &Left,
    around: &Around<'_>,
    state: &mut State,
) -> Result<Target, CheckFault>
    requires { P.ask checker.now.phrases }
    ensures { Gives reaching.target (spec.target (words.around around.now) (plain.left left.now) (words.state state.old)) result (words.state state.new) }
{
    let start = left.name.place;
    let meaning = named(checker.alloc, around, state, &left.name)?;
    let at = At {
        last: start,
        reached: led_to(checker.alloc, meaning)?,
    };
    let at = checker.walk(left.suffixes.as_slice(), around, state, Use::Store, at)?;
    let At { last, reached } = at;
    stored(state, last, reached)
}

#[tactic(auto, unfolding(check_selectors::specs::Views::suffixes))]
fn target_of(part: Part, to: (Home, Suffixes), conversion: Conversion, check: Range) -> TypedTarget
    ensures { tree.target result ≡ tree.target_by conversion check part to.0 (reaching.suffixes to.1) }
{
    let (home, suffixes) = to;
    TypedTarget {
        part,
        home,
        suffixes,
        conversion,
        check,
    }
}

/// The part of what is taken that goes to a target, which must fit.
#[tactic(auto, using(crate::proofs::TargetLaws::targets_alike), unfolding(check_rules::specs::Statements::extracted))]
fn extracted(place: Place, from: Spot<'_>, to: Target) -> Result<TypedTarget, CheckFault>
    ensures { GivesOnly tree.target (rule.extracted place (known.spot from.entry) (reaching.target to)) result }
{
    let Target {
        home,
        suffixes,
        kind,
    } = to;
    let fits = conforms(from.kind, &kind);
    let conversion = conversion_for(from.kind, &kind);
    let check = range_for(from.kind, &kind);
    kind.let_go();
    if !fits {
        suffixes.let_go();
        return Err(CheckFault::At(Cause::TypeMismatch, place));
    }
    let (suffixes, words) = both(suffixes, size(from.kind))?;
    let part = Part {
        field: from.number,
        offset: from.offset,
        words,
    };
    Ok(target_of(part, (home, suffixes), conversion, check))
}

#[tactic(auto, unfolding(crate::specs::Rules::target_for))]
fn target_for<P: Phrases>(
    checker: &Checker<P>,
    left: &Left,
    around: &Around<'_>,
    state: &mut State,
    start: Place,
    spot: Spot<'_>,
) -> Result<TypedTarget, CheckFault>
    requires { P.ask checker.now.phrases }
    ensures { Gives tree.target (rules.target_for (words.around around.now) start (known.spot spot.entry) (plain.left left.now) (words.state state.old)) result (words.state state.new) }
{
    let found = target(checker, left, around, state)?;
    extracted(start, spot, found)
}

/// The target for the field with this number, before which so many words stand, and how many stand before the next.
#[tactic(auto, using(check_state::proofs::TypeForms::parts_of_field), unfolding(crate::specs::Rules::next_target))]
fn next_target<P: Phrases>(
    checker: &Checker<P>,
    left: &Left,
    around: &Around<'_>,
    state: &mut State,
    start: Place,
    at: (usize, u32),
    field: &FieldType,
) -> Result<(TypedTarget, u32), CheckFault>
    requires { P.ask checker.now.phrases }
    ensures { Gives (λ x. (tree.target x.0, x.1)) (rules.next_target (words.around around.now) start at.0 at.1 (plain_field field.now) (plain.left left.now) (words.state state.old)) result (words.state state.new) }
{
    let (number, offset) = at;
    let spot = Spot {
        number: narrow(number)?,
        offset,
        kind: &field.kind,
    };
    let made = target_for(checker, left, around, state, start, spot)?;
    Ok(both(made, past(offset, &field.kind))?)
}

/// Targets in order.
fn in_order<P: Phrases>(
    checker: &Checker<P>,
    all: &[Left],
    around: &Around<'_>,
    state: &mut State,
    start: Place,
    fields: &[FieldType],
) -> Result<Targets, CheckFault>
    requires { P.ask checker.now.phrases }
    ensures { Gives view.targets (spec.targets_in_order (words.around around.now) start 0 0 (words.fields fields.now) (plain.lefts all.now) (words.state state.old)) result (words.state state.new) }
{
    let mut done = List::new(checker.alloc);
    let mut offset = 0u32;
    for i in 0..all.len().min(fields.len()) {
        let made = next_target(
            checker,
            &all[i],
            around,
            state,
            start,
            (i, offset),
            &fields[i],
        );
        let (held, (made, past)) = both(done, made)?;
        done = pushed(held, made)?;
        offset = past;
    }
    Ok(done)
}

#[tactic(auto, using(crate::proofs::TargetLaws::lefts_counted))]
fn same_count(all: &[Left], fields: &[FieldType], place: Place) -> Result<(), CheckFault>
    ensures { GivesOnly (λ _. tt) (only (nat_eq (parts.count_lefts (plain.lefts all.now)) (length (words.fields fields.now))) WrongCount place) result }
{
    if all.len() == fields.len() {
        Ok(())
    } else {
        Err(CheckFault::At(Cause::WrongCount, place))
    }
}

fn are_fields(all: &[Keyed<Left>], spots: &Spots<'_>) -> bool
    requires { known.Finds spots.now }
    ensures { result ≡ parts.are_fields (words.fields spots.now.fields.now) (parts.keys_of_lefts (plain.keyed_lefts all.now)) }
{
    for one in all {
        if spots.find(&one.key).is_none() {
            return false;
        }
    }
    true
}

/// The key stands for the first time, and is taken from here on.
fn take(alloc: Global, taken: &mut Names<bool>, key: &Identifier) -> Result<(), CheckFault>
    ensures outcome { GivesOnly (λ _. tt) (only (not (is_some (means taken.old key.now.name))) TwiceDeclared key.now.place) result }
    ensures taken { OnOk result (means taken.new ≡ with_name key.now.name true (means taken.old)) }
{
    if taken.has(key.name.bytes()) {
        return Err(CheckFault::At(Cause::TwiceDeclared, key.place));
    }
    taken.declare(alloc, key.name.bytes(), true)?;
    Ok(())
}

/// The target with a key.
#[tactic(auto, unfolding(crate::specs::Rules::keyed_target))]
fn keyed_target<P: Phrases>(
    checker: &Checker<P>,
    one: &Keyed<Left>,
    around: &Around<'_>,
    state: &mut State,
    start: Place,
    spots: &Spots<'_>,
    taken: &mut Names<bool>,
) -> Result<TypedTarget, CheckFault>
    requires asked { P.ask checker.now.phrases }
    requires finds { known.Finds spots.now }
    ensures outcome { Gives tree.target (rules.keyed_target (words.around around.now) start (words.fields spots.now.fields.now) (means taken.old) one.now.key (plain.left one.now.item) (words.state state.old)) result (words.state state.new) }
    ensures taken { OnOk result (means taken.new ≡ with_name one.now.key.name true (means taken.old)) }
{
    take(checker.alloc, taken, &one.key)?;
    match spots.find(&one.key) {
        None => Err(CheckFault::At(Cause::WrongCount, one.key.place)),
        Some(spot) => target_for(checker, &one.item, around, state, start, spot),
    }
}

/// Targets with keys.
fn by_key<P: Phrases>(
    checker: &Checker<P>,
    all: &[Keyed<Left>],
    around: &Around<'_>,
    state: &mut State,
    start: Place,
    spots: &Spots<'_>,
) -> Result<Targets, CheckFault>
    requires asked { P.ask checker.now.phrases }
    requires finds { known.Finds spots.now }
    ensures { Gives view.targets (spec.targets_by_key (words.around around.now) start (words.fields spots.now.fields.now) [] (plain.keyed_lefts all.now) (words.state state.old)) result (words.state state.new) }
{
    let mut taken = Names::new(checker.alloc);
    let mut done = List::new(checker.alloc);
    for one in all {
        let made = keyed_target(checker, one, around, state, start, spots, &mut taken);
        let (held, made) = both(done, made)?;
        done = pushed(held, made)?;
    }
    Ok(done)
}

/// The targets of an extractor, at its bracket and the start of its right side, which has these fields.
#[tactic(auto, using(crate::proofs::Clauses::targets_none, crate::proofs::Clauses::targets_ordered, crate::proofs::Clauses::targets_keyed, crate::proofs::TargetLaws::no_targets))]
pub fn targets<P: Phrases>(
    checker: &Checker<P>,
    all: &Entries<Left>,
    around: &Around<'_>,
    state: &mut State,
    at: (Place, Place),
    fields: &[FieldType],
) -> Result<Targets, CheckFault>
    requires { P.ask checker.now.phrases }
    ensures { Gives view.targets (spec.targets (words.around around.now) at.0 at.1 (words.fields fields.now) (plain.targets all.now) (words.state state.old)) result (words.state state.new) }
{
    let (place, start) = at;
    match all {
        Entries::Nothing => Ok(List::new(checker.alloc)),
        Entries::InOrder(all) => {
            same_count(all.as_slice(), fields, place)?;
            in_order(checker, all.as_slice(), around, state, start, fields)
        }
        Entries::ByKey(all) => {
            let spots = Spots::of(checker.alloc, fields)?;
            if !are_fields(all.as_slice(), &spots) {
                return Err(CheckFault::At(Cause::WrongCount, place));
            }
            by_key(checker, all.as_slice(), around, state, start, &spots)
        }
    }
}
