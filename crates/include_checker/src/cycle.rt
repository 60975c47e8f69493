//! The cycle of texts none of which can be taken.

ghost use Rattle.std.specs.Prelude.{◌≡◌, ◌<◌, false, true, IfOk, Some, length};
ghost use Rattle.include_rules.specs.Naming.{first_left, is_left};
ghost use Rattle.include_rules.specs.Order.{IsCycle, IsFirstLeft, IsStuck};
ghost use Rattle.include_checker.specs.Graphs.{IsGraph};
ghost use Rattle.include_checker.specs.Ways.{Ends};

use crate::left::{first_left, is_left};
use crate::naming::Graph;
use mesa_base::{List, Numbers, OutOfMemory};
use std::alloc::Global;

// Where nothing can be taken, a text that is left names one that is left.
fn onward(names: &Graph, taken: &[u32], text: u32) -> u32
    requires stuck { IsStuck names.now taken.now }
    requires is_text { text < length names.now }
    requires left { is_left taken.now text ≡ true }
    ensures { first_left names.now taken.now text ≡ Some result }
{
    match first_left(names, taken, text) {
        Some(next) => next,
        None => unreachable!(),
    }
}

// The way from one of its texts on.
fn way_from(alloc: Global, way: &[u32], text: u32) -> Result<Numbers, OutOfMemory>
    requires { is_left way.now text ≡ false }
    ensures { IfOk result (Ends way.now text) }
{
    for (at, other) in way.iter().enumerate() {
        if *other == text {
            return List::from_slice(alloc, &way[at..]);
        }
    }
    unreachable!()
}

/// The cycle to which the way leads that begins at the first text that is left.
pub fn cycle_from(
    alloc: Global,
    names: &Graph,
    taken: &[u32],
    first: u32,
) -> Result<Numbers, OutOfMemory>
    requires graph { IsGraph names.now }
    requires stuck { IsStuck names.now taken.now }
    requires first { IsFirstLeft names.now taken.now first }
    ensures { IfOk result (IsCycle names.now) }
{
    let mut way = List::of(alloc, first)?;
    let mut next = onward(names, taken, first);
    'steps: while is_left(way.as_slice(), next) {
        way.push(next)?;
        next = onward(names, taken, next);
    }
    way_from(alloc, way.as_slice(), next)
}
