//! Jumps to what stands around a place.
ghost use Rattle.std.specs.Prelude.{◌≡◌, ◌+◌, option_map};
ghost use Rattle.mesa_types.specs.Plain.{stmt};
ghost use Rattle.check_rules.specs.Around as spec;
ghost use Rattle.check_state.specs.Gives.{GivesOnly};
ghost use Rattle.check_state.specs.Views as view;

use check_rules::{Cause, CheckFault};
use check_state::{Around, Seen, next};
use mesa_base::{Identifier, Place};
use mesa_types::{Goal, TypedStmt};

/// A jump to a goal that has so many arms around it: none leads out of an UNWIND arm.
#[tactic(auto, unfolding(check_rules::specs::Around::jump, check_state::specs::Views::around))]
fn jump(around: &Around<'_>, place: Place, goal: Goal, arms: u32) -> Result<TypedStmt, CheckFault>
    ensures { GivesOnly stmt (spec.jump (view.around around.now) place goal arms) result }
{
    if arms < around.unwinding {
        return Err(CheckFault::At(Cause::UnwindJumps, place));
    }
    Ok(TypedStmt::Jump(around.arms.saturating_sub(arms), goal))
}

/// EXIT leads past the loop.
#[tactic(auto, unfolding(check_state::specs::Views::around))]
pub fn exit_loop(around: &Around<'_>, place: Place) -> Result<TypedStmt, CheckFault>
    ensures { GivesOnly stmt (spec.exit_loop (view.around around.now) place) result }
{
    match around.repeated {
        None => Err(CheckFault::At(Cause::BadLabel, place)),
        Some(seen) => jump(around, place, Goal::PastStatement(seen.number), seen.arms),
    }
}

/// LOOP leads past the loop's body, which is the statement next in number.
#[tactic(auto, unfolding(check_state::specs::Views::around))]
pub fn next_round(around: &Around<'_>, place: Place) -> Result<TypedStmt, CheckFault>
    ensures { GivesOnly stmt (spec.next_round (view.around around.now) place) result }
{
    match around.repeated {
        None => Err(CheckFault::At(Cause::BadLabel, place)),
        Some(seen) => {
            let body = next(seen.number)?;
            jump(around, place, Goal::PastStatement(body), seen.arms)
        }
    }
}

#[tactic(auto, unfolding(check_state::specs::Views::around))]
fn label(around: &Around<'_>, name: &Identifier) -> Option<Seen>
    ensures { option_map view.seen result ≡ (view.around around.now).labels name.now.name }
{
    match around.labels {
        None => None,
        Some(labels) => labels.find(name.name.bytes()),
    }
}

/// GOTO leads to a label that is visible.
pub fn go_to(around: &Around<'_>, place: Place, name: &Identifier) -> Result<TypedStmt, CheckFault>
    ensures { GivesOnly stmt (spec.go_to (view.around around.now) place name.now) result }
{
    match label(around, name) {
        None => Err(CheckFault::At(Cause::BadLabel, name.place)),
        Some(seen) => jump(around, place, Goal::ToLabel(seen.number), seen.arms),
    }
}

/// RETURN without values.
pub fn return_jump(around: &Around<'_>, place: Place) -> Result<TypedStmt, CheckFault>
    ensures { GivesOnly stmt (spec.return (view.around around.now) place) result }
{
    jump(around, place, Goal::ToReturn, 0)
}
