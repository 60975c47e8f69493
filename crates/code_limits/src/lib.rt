//! What soundness does not limit of a code: whether four bytes count its links, and that two count the arms that its jumps leave.
#![tactic(auto)]

mod few;

pub use few::has_few_links;
