//! Jumps that leave arms.

ghost use Rattle.std.specs.Prelude.{◌≡◌, ℕ, ◌<◌, ◌≤◌, length};
ghost use Rattle.code_forms.specs.declared.module_code.CodeProcedure.{CodeProcedure};
ghost use Rattle.machine_rules.specs.LookUps.{procedure_of};
ghost use Rattle.machine_rules.specs.State.{Stepped, Store};
ghost use Rattle.machine_activations.specs.Calling.{LeadsTo};
ghost use Rattle.machine_activations.specs.Reaching.{IsUnstuck};
ghost use Rattle.machine_activations.specs.Stacks.{HasRoom, KeepsRoom, on};
ghost use Rattle.machine_signals.specs.Indexed.{AreTables, IsAsked, IsRead};
ghost use Rattle.machine_signals.specs.Jumping.{Aims, CanJump, Jumps, has_offset_in, in_span, place_in};
ghost use Rattle.machine_signals.specs.Raising.{ArmsHold, HoldsOn};

use crate::arms::{Span, span_at};
use crate::leaving::{leave_on, left_to_ask};
use crate::lookups::procedure_at;
use machine_activations::{Kind, Row, Sequel, Stack, Target, row_of};
use machine_ready::Tables;
use machine_topmost::Registers;
use object_files::Image;

fn in_span(span: Span, offset: u32) -> bool
    ensures { result ≡ in_span span offset }
{
    span.start <= offset && offset < span.end
}

// Whether the activation of a row is a running arm of the frame at a place, in whose region the offset is.
fn has_offset(image: &Image, row: Row, owner: usize, offset: u32) -> bool
    requires { IsRead image.now row }
    ensures { (p : CodeProcedure) → procedure_of image.now row.instance row.procedure ≡ Some p
        → result ≡ has_offset_in row.kind p.phrases owner offset }
{
    let procedure = procedure_at(image, row.instance, row.procedure);
    match row.kind {
        Kind::Frame => false,
        Kind::Arm {
            owner: own,
            arm,
            ..
        } => own == owner && in_span(span_at(procedure.phrases.as_slice(), arm), offset),
    }
}

// The place of the activation to which a jump goes: the topmost of the first so many that is an arm of the frame with the
// offset in its region, else the frame. No arm of a frame lies below it, so no place below the frame is looked at.
fn place_for(image: &Image, stack: &Stack, count: usize, owner: usize, offset: u32) -> usize
    requires rows { (q : ℕ) → q < count → IsAsked image.now stack.now.rows.items q }
    requires long { count ≤ length stack.now.rows.items }
    requires low { owner < count }
    ensures { result ≡ place_in image.now stack.now.rows.items count owner offset }
{
    for back in 0..count - owner - 1 {
        let place = count - 1 - back;
        if has_offset(image, row_of(stack, place), owner, offset) {
            return place;
        }
    }
    owner
}

// Where a jump goes that leaves an arm of the frame at a place, over so many activations.
fn target_of(image: &Image, stack: &Stack, count: usize, owner: usize, goal: Option<u32>) -> Target
    requires rows { (q : ℕ) → q < count → IsAsked image.now stack.now.rows.items q }
    requires long { count ≤ length stack.now.rows.items }
    requires low { owner < count }
    ensures { Aims image.now stack.now.rows.items count owner goal result }
{
    let place = match goal {
        Some(offset) => place_for(image, stack, count, owner, offset),
        None => owner,
    };
    Target { place, owner, goal }
}

/// A jump leaves the topmost activation, an arm, and the arms that hold it, to an offset of its procedure: activations are
/// given up down to the one in whose region that is, and UNWIND arms are run between. With no offset it goes to the frame
/// of the arm, which returns.
pub fn leave(
    image: &Image,
    tables: &Tables,
    goal: Option<u32>,
    stack: &mut Stack,
    r: Registers,
    turns: &mut u64,
) -> Sequel
    requires tables { AreTables image.now stack.old.layout tables.now }
    requires room { HasRoom stack.old r.top }
    requires arms { ArmsHold image.now stack.old.rows.items r.top }
    requires jumps { on stack.old (CanJump image.now) r goal }
    ensures room { KeepsRoom stack.old stack.new result }
    ensures turns_fall { turns.new ≤ turns.old }
    ensures arms { HoldsOn image.now stack.new.rows.items result }
    ensures leads { (s : Stepped) (m : Store) → IsUnstuck image.now s → m.turns ≡ turns.old
        → on stack.old (Jumps image.now) r goal s m
        → on stack.new (LeadsTo image.now) s (record m { turns = turns.new }) result }
{
    let kind = row_of(stack, r.top).kind;
    match kind {
        Kind::Frame => Sequel::Empty,
        Kind::Arm { owner, .. } => {
            let target = target_of(image, stack, r.top, owner, goal);
            let top = r.top - 1;
            let under = row_of(stack, top);
            let first = left_to_ask(image, tables, kind, under, stack.layout);
            leave_on(image, tables, target, first, stack, top, turns)
        }
    }
}
