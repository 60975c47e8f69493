//! The search for an arm: the next one for a signal, or the next UNWIND arm of a region.
ghost use Rattle.std.specs.Prelude.{◌≡◌, ℕ, ◌+◌, ◌<◌, ◌^◌, length, IfSome};
ghost use Rattle.signaller.specs.Search.{arms_before, numbered, next_arm, unwind_next};
ghost use Rattle.signaller.specs.Sought.{IsPlace};
ghost use Rattle.signaller.specs.Tables.{IsCatchTable};

use crate::outward::{Sought, beyond, place_for};
use crate::place::Place;
use crate::signal_id::SignalId;
use code_forms::mesa_base::List;
use code_forms::{CatchTable, Phrase};

/// The phrase that is asked next; None means that no phrase is left to ask.
#[derive(Clone, Copy)]
pub struct Search {
    pub phrase: Option<u32>,
}

/// An arm, as arms are numbered over the whole table in its order, with the search beyond its phrase; or none.
#[derive(Clone, Copy)]
pub enum Found {
    Arm(u32, Search),
    Beyond,
}

/// The signals to which links are bound, none for a procedure's.
pub type LinkSignals = List<Option<SignalId>>;

/// An instance, and for each of its links the signal to which it is bound, or none for a procedure.
#[derive(Drop)]
pub struct Links {
    pub instance: u32,
    pub signals: LinkSignals,
}

// How many arms the phrases before this one have.
#[inline(always)]
fn arms_before(table: &[Phrase], number: usize) -> u32
    requires few { arms_before table.now (length table.now) < 2 ^ 32 }
    requires there { number < length table.now }
    ensures { result ≡ arms_before table.now number }
{
    let mut count: u32 = 0;
    for before in 0..number {
        count += table[before].arms.len() as u32;
    }
    count
}

#[inline(always)]
fn numbered(outward: bool, table: &CatchTable, place: Option<Place>) -> Found
    requires table { IsCatchTable table.now }
    requires there { IfSome place (IsPlace table.now) }
    ensures { result ≡ numbered outward table.now place }
{
    match place {
        Some(place) => Found::Arm(
            arms_before(table.as_slice(), place.phrase) + place.arm as u32,
            beyond(table, outward, place.phrase),
        ),
        None => Found::Beyond,
    }
}

/// The first arm that is for the signal, in the phrases from the search outward in this table, with the search beyond
/// its phrase; `Beyond` exactly where there is none. It looks at each phrase of the table up to the search's three
/// times at most, and takes no memory. The phrases of a procedure of valid code are as it asks.
#[inline(always)]
pub fn next_arm(table: &CatchTable, search: Search, links: &Links, signal: &SignalId) -> Found
    requires table { IsCatchTable table.now }
    requires there { IfSome search.phrase (λ n. n < length table.now) }
    ensures { result ≡ next_arm table.now search links.now signal.now }
{
    numbered(
        true,
        table,
        place_for(table, search, Sought::Signal(links, *signal)),
    )
}

/// The first UNWIND arm in the phrases from the search outward in the region of the search's phrase, with the search
/// beyond its phrase, which ends with that region; `Beyond` exactly where there is none. It looks at each phrase of the
/// table up to the search's three times at most, and takes no memory. The phrases of a procedure of valid code are as
/// it asks.
pub fn unwind_next(table: &CatchTable, search: Search) -> Found
    requires table { IsCatchTable table.now }
    requires there { IfSome search.phrase (λ n. n < length table.now) }
    ensures { result ≡ unwind_next table.now search }
{
    numbered(false, table, place_for(table, search, Sought::Jump))
}
