//! Jumps out of arms: activations are given up from the topmost one down, and UNWIND arms are run between.

ghost use Rattle.std.specs.Prelude.{◌≡◌, ℕ, ◌+◌, ◌<◌, ◌≤◌, List, length, IfSome};
ghost use Rattle.machine_rules.specs.State.{Stepped, Store};
ghost use Rattle.machine_activations.specs.Calling.{LeadsTo};
ghost use Rattle.machine_activations.specs.Frames.{row_at};
ghost use Rattle.machine_activations.specs.Reaching.{IsUnstuck};
ghost use Rattle.machine_activations.specs.Stacks.{HasRoom, KeepsRoom, on};
ghost use Rattle.machine_signals.specs.Indexed.{AreTables, AskedOf, IsAsked, IsRead};
ghost use Rattle.machine_signals.specs.Leaving.{CanLeave, IsUnwinding, Leaving, LeftThere, Unwound};
ghost use Rattle.machine_signals.specs.Raising.{ArmsHold, AsksLeft, HoldsOn, LeadsBelow};

use crate::arriving::arrive;
use crate::asking::{around_within, ask_unwind};
use crate::entering::{ArmRun, enter_arm};
use crate::seeking::Landed;
use machine_activations::{Kind, Layout, Reason, Row, Sequel, Stack, Target, owner_of, row_of};
use machine_ready::Tables;
use object_files::Image;
use signaller::{Found, Search};

/// The search of a jump that goes on in the activation under one of a kind, which is dropped: beyond the phrase of an
/// UNWIND arm, or where the one under it waits.
pub(crate) fn left_to_ask(
    image: &Image,
    tables: &Tables,
    kind: Kind,
    under: Row,
    layout: Layout,
) -> Search
    requires tables { AreTables image.now layout tables.now }
    requires read { IsRead image.now under }
    requires asks { AsksLeft image.now kind under }
    ensures left { LeftThere image.now kind under result }
    ensures asks { AskedOf image.now under result }
{
    if let Kind::Arm {
        reason: Reason::Jump { beyond, .. },
        ..
    } = kind
    {
        return beyond;
    }
    around_within(image, tables, under, layout)
}

/// A jump drops activations from the topmost one on, at `top`, and looks for UNWIND arms: the first one, or none before it
/// has come to its target's activation.
fn unwind(
    image: &Image,
    tables: &Tables,
    target: Target,
    first: Search,
    stack: &Stack,
    top: usize,
) -> Option<Landed>
    requires tables { AreTables image.now stack.now.layout tables.now }
    requires rows { (q : ℕ) → q ≤ top → IsAsked image.now stack.now.rows.items q }
    requires long { top < length stack.now.rows.items }
    requires arms { ArmsHold image.now stack.now.rows.items top }
    requires low { target.place ≤ top }
    requires first { AskedOf image.now (row_at stack.now.rows.items top) first }
    ensures landing { IfSome result (IsUnwinding image.now stack.now.rows.items top target) }
    ensures unwinds { (region : List ℕ) → (s : Stepped) → (m : Store)
        → Leaving image.now stack.now.layout region stack.now.rows.items top target first s m
        → Unwound image.now stack.now.layout region stack.now.rows.items target s m result }
{
    let mut place = top;
    let mut search = first;
    'leaving: while place != target.place {
        let row = row_of(stack, place);
        if owner_of(row.kind, place) != target.owner {
            match ask_unwind(image, row, stack.layout, search) {
                Found::Arm(arm, beyond) => return Some(Landed { place, arm, beyond }),
                Found::Beyond => {}
            }
        }
        place -= 1;
        let under = row_of(stack, place);
        search = left_to_ask(image, tables, row.kind, under, stack.layout);
    }
    None
}

/// A jump goes on from the topmost activation that waits, at `top`, whose phrases are asked from a search on: it drops
/// activations until it arrives, or runs the first UNWIND arm that it comes to.
pub(crate) fn leave_on(
    image: &Image,
    tables: &Tables,
    target: Target,
    first: Search,
    stack: &mut Stack,
    top: usize,
    turns: &mut u64,
) -> Sequel
    requires tables { AreTables image.now stack.old.layout tables.now }
    requires room { HasRoom stack.old top }
    requires arms { ArmsHold image.now stack.old.rows.items top }
    requires aims { LeadsBelow image.now stack.old.rows.items (top + 1) target }
    requires asks { AskedOf image.now (row_at stack.old.rows.items top) first }
    requires leaves { on stack.old (CanLeave image.now) top target first }
    ensures room { KeepsRoom stack.old stack.new result }
    ensures turns_fall { turns.new ≤ turns.old }
    ensures arms { HoldsOn image.now stack.new.rows.items result }
    ensures leads { (s : Stepped) (m : Store) → IsUnstuck image.now s → m.turns ≡ turns.old
        → on stack.old (Leaving image.now) top target first s m
        → on stack.new (LeadsTo image.now) s (record m { turns = turns.new }) result }
{
    match unwind(image, tables, target, first, stack, top) {
        Some(landed) => {
            let reason = Reason::Jump {
                target,
                beyond: landed.beyond,
            };
            let place = landed.place;
            let arm = ArmRun {
                place,
                arm: landed.arm,
                reason,
                from: 0,
                count: 0,
            };
            enter_arm(image, tables, arm, stack, place, turns)
        }
        None => arrive(image, target.goal, target.place, stack),
    }
}
