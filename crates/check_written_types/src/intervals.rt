//! Intervals as types, and where types begin.
ghost use Rattle.std.specs.Prelude.{◌≡◌, option_map};
ghost use Rattle.std.specs.Option.{option_copied};
ghost use Rattle.syntax_trees.specs.PlainSyntax as syntax;
ghost use Rattle.check_rules.specs.Checking as spec;
ghost use Rattle.check_rules.specs.Parts as parts;
ghost use Rattle.interface_records.specs.PlainTypes.{plain};
ghost use Rattle.check_rules.specs.Values as values;
ghost use Rattle.check_state.specs.Gives.{Gives, GivesOnly};
ghost use Rattle.check_state.specs.Views as words;
ghost use Rattle.check_written_types.specs.Forms as form;

use check_expressions::check_operands::check_values::{finish, not_long};
use check_expressions::check_operands::{aim_for, first, first_of_interval};
use check_expressions::{Checker, Phrases};
use check_rules::{Cause, CheckFault};
use check_state::{Aim, Around, State, Typed, word_base};
use check_types::{bound, interval_base, subrange};
use held_trees::{LetGo, both};
use mesa_base::Place;
use mesa_types::TypeTree;
use std::alloc::Global;
use syntax_trees::syntax::{Interval, TypeBase, TypeExp};

fn first_of_base(base: &TypeBase, interval: &Interval) -> Place
    ensures { result ≡ parts.first_of_base base.now (syntax.interval interval.now) }
{
    match base {
        TypeBase::Unsaid => first_of_interval(interval),
        TypeBase::OfInteger(place) | TypeBase::OfCardinal(place) | TypeBase::OfCharacter(place) => {
            *place
        }
        TypeBase::OfName(name) => name.first.place,
    }
}

/// The place of a type's first token.
#[tactic(auto, using(syntax_trees::proofs::PlainForms::type_exp_forms))]
pub fn first_of_type(e: &TypeExp) -> Place
    ensures { result ≡ parts.first_of_type (syntax.type_exp e.now) }
{
    match e {
        TypeExp::Called(name) => name.first.place,
        TypeExp::Subrange(base, interval) => first_of_base(base, interval),
        TypeExp::Integer(place)
        | TypeExp::Cardinal(place)
        | TypeExp::LongInteger(place)
        | TypeExp::LongCardinal(place)
        | TypeExp::Boolean(place)
        | TypeExp::Character(place)
        | TypeExp::String(place)
        | TypeExp::Enumeration(place, _)
        | TypeExp::Array(place, _, _)
        | TypeExp::Record(place, _) => *place,
    }
}

/// A bound, given to the type that is said; none is LONG, also where a LONG value would conform to that type.
#[tactic(auto, unfolding(check_rules::specs::Values::bound_of))]
fn bound_of(
    alloc: Global,
    said: Option<&TypeTree>,
    start: Place,
    found: Typed,
) -> Result<Typed, CheckFault>
    ensures { GivesOnly words.typed (values.bound_of (option_map plain (option_copied said.entry)) start (words.typed found)) result }
{
    let fits = not_long(start, &found);
    let (found, _) = both(found, fits)?;
    finish(alloc, aim_for(said, start), found)
}

/// The type of an interval whose bounds are of this type, if one is said. Bounds are constants and not LONG; they have one base,
/// which is that of the type that is said, and leave one value at least.
#[tactic(auto, using(syntax_trees::proofs::PlainForms::parts, crate::proofs::Clauses::interval_is))]
pub fn of_interval<P: Phrases>(
    interval: &Interval,
    checker: &Checker<P>,
    around: &Around<'_>,
    state: &mut State,
    said: Option<&TypeTree>,
) -> Result<TypeTree, CheckFault>
    requires { P.ask checker.now.phrases }
    ensures { Gives plain (spec.of_interval (words.around around.now) (option_map plain (option_copied said.entry)) (syntax.interval interval.now) (words.state state.old)) result (words.state state.new) }
{
    let alloc = checker.alloc;
    let start = first(interval.low.get());
    let inner = around.in_constant(start);
    let low = checker.check(interval.low.get(), &inner, state, Aim::Free(start))?;
    let low = bound_of(alloc, said, start, low)?;
    let word = bound(start, &low);
    let (low, first_word) = both(low, word)?;
    let start = first(interval.high.get());
    let inner = around.in_constant(start);
    let high = checker.check(interval.high.get(), &inner, state, Aim::Free(start));
    let (low, high) = both(low, high)?;
    let (low, high) = both(low, bound_of(alloc, said, start, high))?;
    let word = bound(start, &high);
    let ((low, high), last_word) = both((low, high), word)?;
    let base = interval_base(alloc, said, &low.kind, first_word, &high.kind, last_word);
    (low, high).let_go();
    match base? {
        None => Err(CheckFault::At(Cause::TypeMismatch, interval.place)),
        Some(base) => subrange(
            interval.place,
            alloc,
            base,
            interval.is_open_below,
            first_word,
            last_word,
            interval.is_open_above,
        ),
    }
}

/// A subrange.
#[tactic(auto, unfolding(crate::specs::Forms::ranged))]
pub(crate) fn ranged<P: Phrases>(
    interval: &Interval,
    checker: &Checker<P>,
    around: &Around<'_>,
    state: &mut State,
    base: &TypeBase,
) -> Result<TypeTree, CheckFault>
    requires { P.ask checker.now.phrases }
    ensures { Gives plain (form.ranged (words.around around.now) base.now (syntax.interval interval.now) (words.state state.old)) result (words.state state.new) }
{
    let said = word_base(checker.alloc, around, state, base)?;
    let made = of_interval(interval, checker, around, state, said.as_ref());
    said.let_go();
    made
}
