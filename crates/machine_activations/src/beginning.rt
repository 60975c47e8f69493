//! The first frame of an instance that is started where no activation stands.

ghost use Rattle.std.specs.Prelude.{◌≡◌, ℕ, ◌≤◌, [], length, true, Some, vec_capacity};
ghost use Rattle.object_files.specs.declared.image.Image.{Image};
ghost use Rattle.machine_rules.specs.Calls.{set_of, start};
ghost use Rattle.machine_rules.specs.LookUps.{code_of};
ghost use Rattle.machine_rules.specs.Moves.{limit};
ghost use Rattle.machine_rules.specs.State.{Stepped, Store};
ghost use Rattle.machine_activations.specs.Beginning.{IsCodeFor};
ghost use Rattle.machine_activations.specs.Calling.{AddsFirst, LeadsTo};
ghost use Rattle.machine_activations.specs.Reaching.{Reaches};
ghost use Rattle.machine_activations.specs.Shows.{IsPrepared, IsReserved};
ghost use Rattle.machine_activations.specs.Stacks.{KeepsRoom, on};

use crate::calling::Sequel;
use crate::frames::clear;
use crate::growing::make_room;
use crate::row::{Kind, Row};
use crate::stack::Stack;
use code_forms::ModuleCode;
use machine_rules::End;
use machine_topmost::Registers;

/// Starts an instance, whose code this is, where no activation stands: a turn is spent, and the frame of its body is made
/// at the lowest place.
pub fn begin(code: &ModuleCode, instance: u32, stack: &mut Stack, turns: &mut u64) -> Sequel
    requires code { IsCodeFor stack.old.layout code.now }
    requires rows { length stack.old.rows.items ≡ limit }
    requires reserved { IsReserved stack.old.layout (vec_capacity stack.old.region) }
    ensures room { KeepsRoom stack.old stack.new result }
    ensures adds { AddsFirst stack.old.rows.items stack.new.rows.items result }
    ensures turns_fall { turns.new ≤ turns.old }
    ensures leads { (image : Image) → IsPrepared image stack.old.layout → code_of image instance ≡ Some code.now
        → (s : Stepped) (m : Store) → m.turns ≡ turns.old → Reaches image s (start image instance [] m)
        → on stack.new (LeadsTo image) s (record m { started = set_of m.started instance true; turns = turns.new }) result }
{
    if *turns == 0 {
        return Sequel::Ends(End::Spent);
    }
    *turns -= 1;
    let body = &code.procedures.as_slice()[0];
    let frame = usize::from(body.frame);
    let layout = stack.layout;
    stack.rows[0] = Row {
        instance,
        procedure: 0,
        entry: 0,
        count: 0,
        kind: Kind::Frame,
    };
    make_room(&mut stack.region, layout, 0);
    clear(&mut stack.region, 0, frame);
    Sequel::Goes(Registers {
        top: 0,
        slots: 0,
        sp: layout.frame,
        entry: 0,
    })
}
