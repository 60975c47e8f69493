//! What limits types, and which types are index types.
ghost use Rattle.std.specs.Prelude.{◌≡◌, nat_le};
ghost use Rattle.mesa_base.specs.declared.limits.TheConstants.{TYPE_WORDS, TYPE_DEPTH};
ghost use Rattle.interface_records.specs.PlainTypes.{depth_of, plain, words_of};
ghost use Rattle.check_rules.specs.TypeRules as spec;
ghost use Rattle.check_state.specs.Gives.{GivesOnly};
ghost use Rattle.check_values.specs.Views as view;

use check_rules::{Cause, CheckFault};
use check_state::{bounds, is_ordinal};
use check_values::{Sort, sort_of};
use mesa_base::Place;
use mesa_base::limits::{TYPE_DEPTH, TYPE_WORDS};
use mesa_types::TypeTree;
use typed_answers::{depth, size_words};

#[tactic(auto, using(crate::proofs::DepthLaws::few_words_by))]
fn has_few_words(kind: &TypeTree) -> bool
    ensures { result ≡ nat_le (words_of (plain kind.now)) TYPE_WORDS }
{
    size_words(kind) <= TYPE_WORDS
}

#[tactic(auto, using(crate::proofs::DepthLaws::is_flat_by))]
fn is_flat(kind: &TypeTree) -> bool
    ensures { result ≡ nat_le (depth_of (plain kind.now)) TYPE_DEPTH }
{
    depth(kind) <= TYPE_DEPTH
}

/// The words and the depth of a type are limited.
#[tactic(auto, unfolding(check_rules::specs::TypeRules::limited))]
pub fn limited(place: Place, kind: TypeTree) -> Result<TypeTree, CheckFault>
    ensures { GivesOnly plain (spec.limited place (plain kind)) result }
{
    if has_few_words(&kind) && is_flat(&kind) {
        Ok(kind)
    } else {
        Err(CheckFault::At(Cause::TypeTooLarge, place))
    }
}

fn is_index_by(sort: Sort, is_subrange: bool) -> bool
    ensures { result ≡ spec.is_index_by (view.sort sort) is_subrange }
{
    match sort {
        Sort::Number(_) => is_subrange,
        Sort::LongNumber(_) => false,
        Sort::Letter | Sort::Truth | Sort::Other => true,
    }
}

/// Whether a type is BOOLEAN, CHARACTER, an enumeration or a subrange; a LONG type is none.
#[tactic(auto, unfolding(check_rules::specs::TypeRules::is_index))]
pub fn is_index(kind: &TypeTree) -> bool
    ensures { result ≡ spec.is_index (plain kind.now) }
{
    is_ordinal(kind) && is_index_by(sort_of(kind), bounds(kind).is_some())
}
