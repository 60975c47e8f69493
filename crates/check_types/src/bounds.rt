//! The bounds of an interval, and the subrange that they make.
ghost use Rattle.std.specs.Prelude.{◌≡◌, ◌+◌, ◌-◌, ◌<◌, nat_le, option_map, IfOk};
ghost use Rattle.std.specs.Option.{option_copied};
ghost use Rattle.mesa_types.specs.Operators as word;
ghost use Rattle.mesa_types.specs.Plain.{expr};
ghost use Rattle.interface_records.specs.PlainTypes as types;
ghost use Rattle.interface_records.specs.PlainTypes.{plain};
ghost use Rattle.check_rules.specs.TypeRules as spec;
ghost use Rattle.check_state.specs.Gives.{GivesOnly};
ghost use Rattle.check_state.specs.Views.{typed};

use check_rules::{Cause, CheckFault};
use check_state::{Typed, base_of, is_text, same, sign_of};
use check_values::{Sort, sort_of};
use held_trees::{LetGo, shared};
use mesa_base::{OutOfMemory, Place};
use mesa_types::{Base, TypeTree, TypedExpr};
use std::alloc::Global;
use typed_answers::{constant, truth};

fn literal_word(is_text: bool, value: &TypedExpr) -> Option<u32>
    ensures { result ≡ spec.literal_word is_text (expr value.now) }
{
    match value {
        TypedExpr::Literal(_) if is_text => Some(0),
        _ => constant(value),
    }
}

/// The word of a bound, which is a constant.
#[tactic(auto, unfolding(check_rules::specs::TypeRules::bound))]
pub fn bound(place: Place, value: &Typed) -> Result<u32, CheckFault>
    ensures { GivesOnly (λ n. n) (spec.bound place (typed value.now)) result }
{
    match literal_word(is_text(&value.kind), &value.value) {
        Some(word) => Ok(word),
        None => Err(CheckFault::At(Cause::NotConstant, place)),
    }
}

fn fits_integer(base: Base, word: u32) -> bool
    ensures { result ≡ spec.fits_integer base word }
{
    match base {
        Base::Signed => true,
        Base::Unsigned => word < 32768,
    }
}

fn fits_cardinal(base: Base, word: u32) -> bool
    ensures { result ≡ spec.fits_cardinal base word }
{
    match base {
        Base::Signed => word < 32768,
        Base::Unsigned => true,
    }
}

#[tactic(auto, using(check_state::proofs::TypeForms::type_forms))]
fn number_base(is_integer: bool, is_cardinal: bool) -> Option<TypeTree>
    ensures { option_map plain result ≡ spec.number_base is_integer is_cardinal }
{
    if is_integer {
        Some(TypeTree::Integer)
    } else if is_cardinal {
        Some(TypeTree::Cardinal)
    } else {
        None
    }
}

fn same_base(
    alloc: Global,
    a: Option<&TypeTree>,
    b: Option<&TypeTree>,
) -> Result<Option<TypeTree>, OutOfMemory>
    ensures { IfOk result (λ base. option_map plain base ≡ spec.same_base (option_map plain (option_copied a.entry)) (option_map plain (option_copied b.entry))) }
{
    match (a, b) {
        (Some(a), Some(b)) if same(a, b) => Ok(Some(a.copy(alloc)?)),
        _ => Ok(None),
    }
}

/// The base of an interval without a word: that of its bounds, INTEGER where both numbers are one, else CARDINAL.
#[tactic(auto, unfolding(check_rules::specs::TypeRules::base_of_bounds))]
fn base_of_bounds(
    alloc: Global,
    low: &TypeTree,
    first: u32,
    high: &TypeTree,
    last: u32,
) -> Result<Option<TypeTree>, OutOfMemory>
    ensures { IfOk result (λ base. option_map plain base ≡ spec.base_of_bounds (plain low.now) first (plain high.now) last) }
{
    match (sort_of(low), sort_of(high)) {
        (Sort::Number(a), Sort::Number(b)) => Ok(number_base(
            fits_integer(a, first) && fits_integer(b, last),
            fits_cardinal(a, first) && fits_cardinal(b, last),
        )),
        _ => same_base(alloc, base_of(low), base_of(high)),
    }
}

fn copied(alloc: Global, base: Option<&TypeTree>) -> Result<Option<TypeTree>, OutOfMemory>
    ensures { IfOk result (λ copy. copy ≡ option_copied base.entry) }
{
    match base {
        None => Ok(None),
        Some(base) => Ok(Some(base.copy(alloc)?)),
    }
}

/// The base of an interval's values: of the type that its text says, else of its bounds.
pub fn interval_base(
    alloc: Global,
    said: Option<&TypeTree>,
    low: &TypeTree,
    first: u32,
    high: &TypeTree,
    last: u32,
) -> Result<Option<TypeTree>, OutOfMemory>
    ensures { IfOk result (λ base. option_map plain base ≡ spec.interval_base (option_map plain (option_copied said.entry)) (plain low.now) first (plain high.now) last) }
{
    match said {
        Some(said) => copied(alloc, base_of(said)),
        None => base_of_bounds(alloc, low, first, high, last),
    }
}

/// A word as a plain number, plus 32,768.
#[tactic(auto, unfolding(mesa_types::specs::Operators::shifted))]
fn shifted(base: Base, number: u32) -> u64
    ensures value { result ≡ word.shifted base number }
    ensures small { result < 4295000064 }
{
    match base {
        Base::Signed => (u64::from(number) + 32768) % 65536,
        Base::Unsigned => u64::from(number) + 32768,
    }
}

fn is_not_empty(base: Base, open_low: bool, first: u32, last: u32, open_high: bool) -> bool
    ensures { result ≡ nat_le (word.shifted base first + word.truth open_low + word.truth open_high) (word.shifted base last) }
{
    let left_out = u64::from(truth(open_low)) + u64::from(truth(open_high));
    shifted(base, first) + left_out <= shifted(base, last)
}

/// The first value of an interval: a bound that is left out leaves the next one.
#[tactic(auto, unfolding(mesa_types::specs::Operators::wrap, mesa_types::specs::Operators::truth))]
fn first_word(bound: u32, is_open: bool) -> u16
    ensures { result ≡ word.wrap (bound + word.truth is_open) }
{
    ((u64::from(bound) + u64::from(truth(is_open))) % 65536) as u16
}

/// The last value of an interval.
#[tactic(auto, unfolding(mesa_types::specs::Operators::wrap, mesa_types::specs::Operators::truth))]
fn last_word(bound: u32, is_open: bool) -> u16
    ensures { result ≡ word.wrap (bound + 65536 - word.truth is_open) }
{
    ((u64::from(bound) + 65536 - u64::from(truth(is_open))) % 65536) as u16
}

#[tactic(auto, using(check_state::proofs::TypeForms::type_forms))]
fn subrange_of(
    alloc: Global,
    base: TypeTree,
    first: u16,
    last: u16,
) -> Result<TypeTree, OutOfMemory>
    ensures { IfOk result (λ made. plain made ≡ types.Subrange (plain base) first last) }
{
    Ok(TypeTree::Subrange(shared(alloc, base)?, first, last))
}

/// The subrange of this base between two bounds; an empty interval makes no type.
#[tactic(auto, unfolding(check_rules::specs::TypeRules::subrange))]
pub fn subrange(
    place: Place,
    alloc: Global,
    base: TypeTree,
    open_low: bool,
    first: u32,
    last: u32,
    open_high: bool,
) -> Result<TypeTree, CheckFault>
    ensures { GivesOnly plain (spec.subrange place (plain base) open_low first last open_high) result }
{
    if !is_not_empty(sign_of(&base), open_low, first, last, open_high) {
        base.let_go();
        return Err(CheckFault::At(Cause::TypeMismatch, place));
    }
    let first = first_word(first, open_low);
    let last = last_word(last, open_high);
    Ok(subrange_of(alloc, base, first, last)?)
}
