//! A plan, and why there is none.

use mesa_base::Numbers;

/// Texts by their numbers, from 0.
#[derive(Drop)]
pub struct Plan {
    /// Each text, behind all that it names.
    pub order: Numbers,
    /// Those whose object was made with another interface than is there now, ascending.
    pub stale: Numbers,
}

/// Why texts have no plan.
#[derive(Drop)]
pub enum PlanFault {
    /// Texts each of which names the next, and the last the first.
    Cycle(Numbers),
    Memory,
}
