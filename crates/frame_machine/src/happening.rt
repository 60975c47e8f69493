//! What the pause of the topmost activation leads to.

ghost use Rattle.std.specs.Prelude.{◌≡◌, suc, ◌≤◌};
ghost use Rattle.machine_rules.specs.State.{Stepped, Store};
ghost use Rattle.machine_activations.specs.Reaching.{IsUnstuck};
ghost use Rattle.machine_activations.specs.Shows.{IsAmple};
ghost use Rattle.machine_activations.specs.Stacks.{on};
ghost use Rattle.machine_ready.specs.Ready.{IsReady};
ghost use Rattle.machine_calls.specs.Linking.{IsAmpleForLink, LinkedTo, StandsAt};
ghost use Rattle.machine_calls.specs.Started.{ShowsStarted};
ghost use Rattle.machine_signals.specs.Raising.{ArmsHold};
ghost use Rattle.frame_machine.specs.Happening.{CanPause, HoldsOnLink, linked_or};
ghost use Rattle.frame_machine.specs.SoFar.{PausesAt};

use crate::touching::{settle, touch};
use code_forms::Instruction;
use machine_activations::Sequel;
use machine_calls::LinkSequel;
use machine_ready::Prepared;
use machine_rules::End;
use machine_signals::raise;
use machine_topmost::{Registers, Why};
use object_files::Image;
use signaller::SignalId;

/// What the pause of the topmost activation leads to: the instruction that touches more is done, the run ends for want of
/// a turn, or the fault is raised. The registers are those of the activation that goes on, unless something else is told.
#[inline(always)]
pub(crate) fn happen(
    image: &Image,
    parts: &mut Prepared,
    r: &mut Registers,
    why: Why,
    instruction: Instruction,
    turns: &mut u64,
) -> Option<LinkSequel>
    requires ready { IsReady image.now parts.old }
    requires ample { on parts.old.stack IsAmple r.old.top }
    requires arms { ArmsHold image.now parts.old.stack.rows.items r.old.top }
    requires pauses { CanPause image.now parts.old r.old why }
    requires at { StandsAt image.now parts.old.stack.rows.items r.old instruction }
    ensures ready { IsReady image.now parts.new }
    ensures ample { on parts.new.stack IsAmpleForLink r.old (linked_or result r.new) }
    ensures arms { HoldsOnLink image.now parts.new.stack.rows.items r.old (linked_or result r.new) }
    ensures globals { parts.new.globals.items ≡ parts.old.globals.items }
    ensures turns_fall { turns.new ≤ turns.old }
    ensures leads { (s : Stepped) (m : Store) → m.turns ≡ turns.old → ShowsStarted parts.old.started.items m.started → IsUnstuck image.now s
        → on parts.old.stack (PausesAt image.now) r.old why s m
        → on parts.new.stack (LinkedTo image.now) r.old parts.new.started.items s
        (record m { turns = turns.new; begun = suc m.begun }) (linked_or result r.new) }
{
    match why {
        Why::Touches => touch(image, parts, instruction, r, turns),
        Why::Spent => Some(LinkSequel::Done(Sequel::Ends(End::Spent))),
        Why::BoundsFault => {
            let fault = SignalId::BoundsFault;
            let sequel = raise(image, &parts.tables, fault, 0, &mut parts.stack, *r, turns);
            settle(sequel, r)
        }
        Why::ZeroDivisor => {
            let fault = SignalId::ZeroDivisor;
            let sequel = raise(image, &parts.tables, fault, 0, &mut parts.stack, *r, turns);
            settle(sequel, r)
        }
    }
}
