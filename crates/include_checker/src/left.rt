//! Which texts are left, once some are taken.

ghost use Rattle.std.specs.Prelude.{◌≡◌, find};
ghost use Rattle.include_rules.specs.Naming.{first_left, is_left};

use crate::naming::Graph;

/// The text is not yet taken.
pub fn is_left(taken: &[u32], text: u32) -> bool
    ensures { result ≡ is_left taken.now text }
{
    taken.iter().all(|other| *other != text)
}

fn first_of(row: &[u32], taken: &[u32]) -> Option<u32>
    ensures { result ≡ find (is_left taken.now) row.now }
{
    row.iter().copied().find(|text| is_left(taken, *text))
}

/// The first text that this one names and that is not yet taken.
pub fn first_left(names: &Graph, taken: &[u32], text: u32) -> Option<u32>
    ensures { result ≡ first_left names.now taken.now text }
{
    match names.get(text as usize) {
        Some(row) => first_of(row.as_slice(), taken),
        None => None,
    }
}
