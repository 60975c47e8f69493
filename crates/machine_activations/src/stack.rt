//! The activations that stand, as one thing.

ghost use Rattle.std.specs.Prelude.{◌≡◌, ◌<◌, length};
ghost use Rattle.machine_activations.specs.Frames.{row_at};

use crate::row::{Layout, Row};

/// The activations that stand, the topmost one at the highest place: where the words of each place lie in the region, the
/// region, and a row for each place. The words of the region are in memory that is kept for it: the region grows as deeper
/// places are used, up to a part for each activation that may stand.
#[derive(Drop)]
pub struct Stack {
    pub layout: Layout,
    pub region: Vec<u16>,
    pub rows: Vec<Row>,
}

/// The row of a place.
#[inline(always)]
#[tactic(auto, using(crate::proofs::Tables::row_at_place))]
pub fn row_of(stack: &Stack, place: usize) -> Row
    requires there { place < length stack.now.rows.items }
    ensures { result ≡ row_at stack.now.rows.items place }
{
    stack.rows[place]
}
