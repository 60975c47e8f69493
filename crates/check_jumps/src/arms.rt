//! What stands in arms alone, and what an arm is for.
ghost use Rattle.std.specs.Prelude.{◌≡◌, map};
ghost use Rattle.mesa_types.specs.Plain.{stmt};
ghost use Rattle.check_rules.specs.Around as spec;
ghost use Rattle.check_state.specs.Gives.{GivesOnly};
ghost use Rattle.check_state.specs.Views as view;

use crate::likeness::{all_give, all_like, all_resumable};
use check_rules::{Cause, CheckFault};
use check_state::{ArmHere, ArmLabel, Around};
use mesa_base::Place;
use mesa_types::{FieldType, TypedStmt};

pub fn is_unwinding(labels: &[ArmLabel]) -> bool
    ensures { result ≡ spec.is_unwinding (map view.arm_label labels.now) }
{
    match labels {
        [ArmLabel::ForUnwind, ..] => true,
        _ => false,
    }
}

/// In an arm for raises: the statement of its phrase and its labels.
fn arm_for_raises<'a>(place: Place, arm: ArmHere<'a>) -> Result<(u32, &'a [ArmLabel]), CheckFault>
    ensures { GivesOnly (λ r. (r.0, map view.arm_label r.1.now)) (spec.arm_for_raises place (view.arm_here arm.entry)) result }
{
    match arm {
        ArmHere::NoArm => Err(CheckFault::At(Cause::BadLabel, place)),
        ArmHere::InArm(number, labels) => {
            if is_unwinding(labels) {
                Err(CheckFault::At(Cause::UnwindJumps, place))
            } else {
                Ok((number, labels))
            }
        }
    }
}

/// RETRY begins the statement of the arm's phrase again.
#[tactic(auto, unfolding(check_state::specs::Views::around))]
pub fn retry(around: &Around<'_>, place: Place) -> Result<TypedStmt, CheckFault>
    ensures { GivesOnly stmt (spec.retry (view.around around.now) place) result }
{
    let (number, _) = arm_for_raises(place, around.arm)?;
    Ok(TypedStmt::Retry(number))
}

/// CONTINUE leads past the statement of the arm's phrase.
#[tactic(auto, unfolding(check_state::specs::Views::around))]
pub fn continue_arm(around: &Around<'_>, place: Place) -> Result<TypedStmt, CheckFault>
    ensures { GivesOnly stmt (spec.continue (view.around around.now) place) result }
{
    let (number, _) = arm_for_raises(place, around.arm)?;
    Ok(TypedStmt::Continue(number))
}

/// REJECT stands in any arm.
#[tactic(auto, unfolding(check_state::specs::Views::around))]
pub fn reject(around: &Around<'_>, place: Place) -> Result<TypedStmt, CheckFault>
    ensures { GivesOnly stmt (spec.reject (view.around around.now) place) result }
{
    match around.arm {
        ArmHere::NoArm => Err(CheckFault::At(Cause::BadLabel, place)),
        ArmHere::InArm(_, _) => Ok(TypedStmt::Reject),
    }
}

fn results_of(labels: &[ArmLabel]) -> &[FieldType]
    ensures { view.fields result.now ≡ spec.results_of (map view.arm_label labels.now) }
{
    match labels {
        [ArmLabel::ForSignal(_, head), ..] => head.get().gives.as_slice(),
        _ => &[],
    }
}

/// What RESUME gives.
#[tactic(auto, unfolding(check_rules::specs::Around::resumed, check_state::specs::Views::around))]
pub fn resumed<'a>(around: &Around<'a>, place: Place) -> Result<&'a [FieldType], CheckFault>
    ensures { GivesOnly (λ fs. view.fields fs.now) (spec.resumed (view.around around.now) place) result }
{
    let (_, labels) = arm_for_raises(place, around.arm)?;
    if !all_resumable(labels) {
        return Err(CheckFault::At(Cause::NotResumable, place));
    }
    let results = results_of(labels);
    if !all_give(results, labels) {
        return Err(CheckFault::At(Cause::TypeMismatch, place));
    }
    Ok(results)
}

/// The parameters that an arm has as variables.
#[tactic(auto, unfolding(check_rules::specs::Around::parameters_of))]
pub fn parameters_of(labels: &[ArmLabel]) -> &[FieldType]
    ensures { view.fields result.now ≡ spec.parameters_of (map view.arm_label labels.now) }
{
    match labels {
        [ArmLabel::ForSignal(_, head), rest @ ..] => {
            let head = head.get();
            if all_like(head, rest) {
                head.takes.as_slice()
            } else {
                &[]
            }
        }
        _ => &[],
    }
}
