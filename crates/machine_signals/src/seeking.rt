//! The way of a signal from the activation that raised it outward.

ghost use Rattle.std.specs.Prelude.{◌≡◌, ℕ, ◌≤◌, ◌<◌, List, length, IfSome};
ghost use Rattle.machine_rules.specs.State.{Activations, Goes, Seeks, Stepped, Store};
ghost use Rattle.machine_activations.specs.Below.{Below, Over};
ghost use Rattle.machine_activations.specs.Calling.{LeadsTo};
ghost use Rattle.machine_activations.specs.Frames.{row_at};
ghost use Rattle.machine_activations.specs.Stacks.{HasRoom, KeepsRoom, on};
ghost use Rattle.machine_signals.specs.Indexed.{AreTables, AskedOf, IsAsked};
ghost use Rattle.machine_signals.specs.Raising.{ArmsHold, HoldsOn, RunsArm};
ghost use Rattle.machine_signals.specs.Seeking.{CanSeek, IsLanding, Seeked, Seeking};

use crate::asking::{around, ask};
use crate::entering::{ArmRun, enter_arm};
use machine_activations::{Reason, Sequel, Stack, owner_of, row_of};
use machine_ready::Tables;
use machine_rules::End;
use object_files::Image;
use signaller::{Found, Search, SignalId};

/// The arm of an activation that catches a signal, by its number, with the search beyond its phrase.
#[derive(Clone, Copy)]
pub struct Landed {
    pub place: usize,
    pub arm: u32,
    pub beyond: Search,
}

/// A signal that was raised with so many words of arguments, which stand in the region from a place on; it asks the phrases of
/// the activation at a place of the stack, from a search on.
#[derive(Clone, Copy)]
pub struct RaisedSignal {
    pub signal: SignalId,
    pub from: usize,
    pub args: usize,
    pub place: usize,
    pub search: Search,
}

/// Seeks the arm for a signal from the activation at a place outward, from a search on; none exactly where none catches it.
#[inline(always)]
pub(crate) fn seek(
    image: &Image,
    tables: &Tables,
    stack: &Stack,
    signal: SignalId,
    from: usize,
    first: Search,
) -> Option<Landed>
    requires tables { AreTables image.now stack.now.layout tables.now }
    requires rows { (q : ℕ) → q ≤ from → IsAsked image.now stack.now.rows.items q }
    requires long { from < length stack.now.rows.items }
    requires first { AskedOf image.now (row_at stack.now.rows.items from) first }
    ensures landing { IfSome result (IsLanding image.now stack.now.rows.items from) }
    ensures seeks { (region : List ℕ) → (x : Over) → (S : Activations) → (args : List ℕ) → (m : Store)
        → Below image.now stack.now.layout region stack.now.rows.items x S → from < length S
        → Seeked image.now signal args S m (Goes (Seeks signal args from first S m)) result }
{
    let mut place = from;
    let mut search = first;
    'seeking: loop {
        let row = row_of(stack, place);
        match ask(image, tables, row, stack.layout, search, signal) {
            Found::Arm(arm, beyond) => return Some(Landed { place, arm, beyond }),
            Found::Beyond => {}
        }
        let own = owner_of(row.kind, place);
        if own == 0 {
            return None;
        }
        place = own - 1;
        search = around(image, tables, row_of(stack, place), stack.layout);
    }
}

/// A signal that the topmost activation raised seeks its arm: the arm that catches it is run, or the run ends.
#[inline(always)]
pub(crate) fn seek_arm(
    image: &Image,
    tables: &Tables,
    raised: RaisedSignal,
    stack: &mut Stack,
    top: usize,
    turns: &mut u64,
) -> Sequel
    requires tables { AreTables image.now stack.old.layout tables.now }
    requires room { HasRoom stack.old top }
    requires asks { AskedOf image.now (row_at stack.old.rows.items raised.place) raised.search }
    requires seeks { on stack.old (CanSeek image.now) top raised.signal raised.from raised.args raised.place raised.search }
    ensures room { KeepsRoom stack.old stack.new result }
    ensures turns_fall { turns.new ≤ turns.old }
    ensures arms { ArmsHold image.now stack.old.rows.items top → HoldsOn image.now stack.new.rows.items result }
    ensures runs { RunsArm result }
    ensures leads { (s : Stepped) (m : Store) → m.turns ≡ turns.old
        → on stack.old (Seeking image.now) top raised.signal raised.from raised.args raised.place raised.search s m
        → on stack.new (LeadsTo image.now) s (record m { turns = turns.new }) result }
{
    let signal = raised.signal;
    match seek(image, tables, stack, signal, raised.place, raised.search) {
        Some(landed) => {
            let reason = Reason::Raise {
                signal,
                args: raised.args,
                beyond: landed.beyond,
            };
            let arm = ArmRun {
                place: landed.place,
                arm: landed.arm,
                reason,
                from: raised.from,
                count: raised.args,
            };
            enter_arm(image, tables, arm, stack, top, turns)
        }
        None => Sequel::Ends(End::Uncaught(signal)),
    }
}
