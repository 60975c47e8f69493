//! A frame of a procedure on top of the activations.

ghost use Rattle.std.specs.Prelude.{◌≡◌};
ghost use Rattle.object_files.specs.declared.image.Image.{Image};
ghost use Rattle.machine_rules.specs.Calls.{call as called_with};
ghost use Rattle.machine_rules.specs.State.{Stepped, Store};
ghost use Rattle.machine_activations.specs.Calling.{AddsFrame, Enters, EntersSome, LeadsTo};
ghost use Rattle.machine_activations.specs.Reaching.{Reaches};
ghost use Rattle.machine_activations.specs.Shows.{IsPrepared};
ghost use Rattle.machine_activations.specs.Stacks.{HasRoom, KeepsRoom, on};

use crate::calling::Sequel;
use crate::frames::{add_row, enter};
use crate::growing::make_room;
use crate::stack::Stack;
use code_forms::CodeProcedure;
use machine_rules::End;
use machine_topmost::Registers;
use mesa_base::limits::ACTIVATIONS;

/// Makes a frame of a procedure, of this number of an instance, with the last operands of the topmost activation as its
/// arguments. The run ends where as many activations stand as may.
#[inline(always)]
pub fn add_frame(
    called: &CodeProcedure,
    instance: u32,
    number: u32,
    stack: &mut Stack,
    r: Registers,
) -> Sequel
    requires enters { on stack.old EntersSome r called.now instance number }
    requires room { HasRoom stack.old r.top }
    ensures room { KeepsRoom stack.old stack.new result }
    ensures adds { AddsFrame stack.old.layout stack.old.rows.items r stack.new.rows.items result }
    ensures leads { (image : Image) → IsPrepared image stack.old.layout → (e : on stack.old (Enters image) r called.now instance number)
        → (s : Stepped) (m : Store) → Reaches image s (called_with instance number called.now e.top e.rest m)
        → on stack.new (LeadsTo image) s m result }
{
    if r.top + 1 >= ACTIVATIONS {
        return Sequel::Ends(End::FrameLimit);
    }
    let layout = stack.layout;
    make_room(&mut stack.region, layout, r.top + 1);
    let args = usize::from(called.args);
    let frame = usize::from(called.frame);
    add_row(&mut stack.rows, r, layout, args, instance, number);
    Sequel::Goes(enter(&mut stack.region, r, layout, args, frame))
}
