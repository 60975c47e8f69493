//! Keyed lists: their values come into the order of their places.
ghost use Rattle.std.specs.Prelude.{◌≡◌, ◌+◌, ◌++◌, length, IfOk, OnOk};
ghost use Rattle.code_rules.specs.Links.{rank};
ghost use Rattle.code_rules.specs.OwnCode as own;
ghost use Rattle.code_trees.specs.Excess.{excess_in};
ghost use Rattle.code_trees.specs.Taken.{blanked, rolls_in_place};

use crate::block::Code;
use crate::linking::{rank_of, sum};
use crate::stack_code::put_lift;
use crate::sums::{together, total};
use mesa_base::{List, OutOfMemory};
use std::alloc::Global;

/// Of the value for a place its words, and those of the values behind it.
#[tactic(auto, using(crate::proofs::Places::found_size, crate::proofs::Places::found_after, crate::proofs::Places::no_size, crate::proofs::Places::none_after))]
fn words_at(place: u32, places: &[u32], sizes: &[u64]) -> Result<(u64, u64), OutOfMemory>
    ensures size { IfOk result (λ found. found.0 ≡ own.size_for place places.now sizes.now) }
    ensures after { IfOk result (λ found. found.1 ≡ own.size_after place places.now sizes.now) }
{
    let at = rank_of(places, place)? as usize;
    if at < places.len() && at < sizes.len() {
        Ok((sizes[at], total(&sizes[at + 1..])?))
    } else {
        Ok((0, 0))
    }
}

/// Without the words of the value for a place.
#[tactic(auto, using(crate::proofs::Places::set_blanked, crate::proofs::Places::short_blanked, crate::proofs::Places::cut_blanked, crate::proofs::Places::whole_blanked))]
fn taken(
    alloc: Global,
    place: u32,
    places: &[u32],
    sizes: List<u64>,
) -> Result<List<u64>, OutOfMemory>
    ensures { IfOk result (λ left. left ≡ blanked place places.now sizes) }
{
    let mut left = sizes;
    let at = rank_of(places, place)? as usize;
    if at < places.len() {
        if at < left.len() {
            left.set(at, 0);
        }
        Ok(left)
    } else if places.len() < left.len() {
        List::from_slice(alloc, &left.as_slice()[..places.len()])
    } else {
        Ok(left)
    }
}

/// From a place on each value is brought to the top.
#[tactic(auto, using(crate::proofs::Taken::rolls_stay))]
fn rolled(alloc: Global, first: u32, places: &[u32], sizes: &[u64]) -> Result<Code, OutOfMemory>
    requires { excess_in (own.rolls first (length places.now) places.now sizes.now 0) ≡ 0 }
    ensures { IfOk result (λ code. code ≡ own.rolls first (length places.now) places.now sizes.now 0) }
{
    let mut code = List::new(alloc);
    let mut place = first;
    let mut left = List::from_slice(alloc, sizes)?;
    let mut moved = 0u64;
    for step in 0..places.len() {
        let (words, behind) = words_at(place, places, left.as_slice())?;
        put_lift(&mut code, words, together(behind, moved)?)?;
        left = taken(alloc, place, places, left)?;
        moved = together(moved, words)?;
        place = sum(place, 1)?;
    }
    Ok(code)
}

/// The values were evaluated in the order of the text. Those that lie in order at the beginning stay; then for each further
/// place its value is brought to the top.
pub fn arranged(alloc: Global, places: &[u32], sizes: &[u64]) -> Result<Code, OutOfMemory>
    requires { excess_in (own.arrange_code places.now sizes.now) ≡ 0 }
    ensures { IfOk result (λ code. code ≡ own.arrange_code places.now sizes.now) }
{
    let mut at = 0u32;
    for place in places {
        let begun = at as usize;
        if begun >= sizes.len() {
            return Ok(List::new(alloc));
        }
        if *place != at {
            return rolled(alloc, at, &places[begun..], &sizes[begun..]);
        }
        at = sum(at, 1)?;
    }
    Ok(List::new(alloc))
}
