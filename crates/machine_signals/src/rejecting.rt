//! Arms that reject.

ghost use Rattle.std.specs.Prelude.{◌≡◌, ◌≤◌, length};
ghost use Rattle.machine_rules.specs.State.{Stepped, Store};
ghost use Rattle.machine_activations.specs.Calling.{LeadsTo};
ghost use Rattle.machine_activations.specs.Frames.{end_at};
ghost use Rattle.machine_activations.specs.Reaching.{IsUnstuck};
ghost use Rattle.machine_activations.specs.Stacks.{HasRoom, KeepsRoom, on};
ghost use Rattle.machine_signals.specs.Indexed.{AreTables};
ghost use Rattle.machine_signals.specs.Leaving.{CanReject, Rejects};
ghost use Rattle.machine_signals.specs.Raising.{ArmsHold, HoldsOn};

use crate::leaving::leave_on;
use crate::seeking::{RaisedSignal, seek_arm};
use machine_activations::{Kind, Reason, Row, Sequel, Stack, row_of};
use machine_ready::Tables;
use machine_topmost::Registers;
use object_files::Image;

// Where the operands of the activation of this row and place end.
fn end_of(stack: &Stack, row: Row, place: usize) -> usize
    requires { end_at row place stack.now.layout ≤ length stack.now.region.items }
    ensures { result ≡ end_at row place stack.now.layout }
{
    let layout = stack.layout;
    place * layout.part + layout.frame + row.count
}

/// The topmost activation, an arm, rejects, as it does at its end: the signal for which it ran asks on beyond its phrase, or
/// the jump that it interrupted goes on there.
pub fn reject(
    image: &Image,
    tables: &Tables,
    stack: &mut Stack,
    r: Registers,
    turns: &mut u64,
) -> Sequel
    requires tables { AreTables image.now stack.old.layout tables.now }
    requires room { HasRoom stack.old r.top }
    requires arms { ArmsHold image.now stack.old.rows.items r.top }
    requires rejects { on stack.old (CanReject image.now) r }
    ensures room { KeepsRoom stack.old stack.new result }
    ensures turns_fall { turns.new ≤ turns.old }
    ensures arms { HoldsOn image.now stack.new.rows.items result }
    ensures leads { (s : Stepped) (m : Store) → IsUnstuck image.now s → m.turns ≡ turns.old
        → on stack.old (Rejects image.now) r s m
        → on stack.new (LeadsTo image.now) s (record m { turns = turns.new }) result }
{
    match row_of(stack, r.top).kind {
        Kind::Frame => Sequel::Empty,
        Kind::Arm { owner, reason, .. } => {
            let under = r.top - 1;
            match reason {
                Reason::Raise {
                    signal,
                    args,
                    beyond,
                } => {
                    let from = end_of(stack, row_of(stack, under), under);
                    let raised = RaisedSignal {
                        signal,
                        from,
                        args,
                        place: owner,
                        search: beyond,
                    };
                    seek_arm(image, tables, raised, stack, under, turns)
                }
                Reason::Jump { target, beyond } => {
                    leave_on(image, tables, target, beyond, stack, under, turns)
                }
            }
        }
    }
}
