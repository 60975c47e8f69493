//! The order of texts, or their cycle.

ghost use Rattle.std.specs.Prelude.{IfOk};
ghost use Rattle.include_checker.specs.Arranging.{IsArranged};
ghost use Rattle.include_checker.specs.Graphs.{IsGraph};

use crate::cycle::cycle_from;
use crate::naming::Graph;
use crate::order::{first_open, in_turn};
use mesa_base::{Numbers, OutOfMemory};
use std::alloc::Global;

/// What becomes of texts: each is taken, or some name each other in a circle.
pub enum Arranged {
    InOrder(Numbers),
    Circling(Numbers),
}

/// The texts in order, each behind all that it names; or those of a cycle.
pub fn arrange(alloc: Global, names: &Graph) -> Result<Arranged, OutOfMemory>
    requires { IsGraph names.now }
    ensures { IfOk result (IsArranged names.now) }
{
    let taken = in_turn(alloc, names)?;
    match first_open(names, taken.as_slice()) {
        None => Ok(Arranged::InOrder(taken)),
        Some(first) => {
            let cycle = cycle_from(alloc, names, taken.as_slice(), first)?;
            Ok(Arranged::Circling(cycle))
        }
    }
}
