//! An arm as a place of its own, with the parameters of its signals as variables.
ghost use Rattle.std.specs.Prelude.{◌≡◌, ◌+◌, length, map, IfOk, OnOk};
ghost use Rattle.mesa_types.specs.Plain.{kinds_of};
ghost use Rattle.mesa_types.specs.Shapes.{count_in, join};
ghost use Rattle.check_rules.specs.Around as around_rule;
ghost use Rattle.check_rules.specs.Meanings as meaning;
ghost use Rattle.interface_records.specs.PlainTypes as types;
ghost use Rattle.interface_records.specs.PlainTypes.{plain_field};
ghost use Rattle.check_rules.specs.Scopes.{nothing};
ghost use Rattle.check_rules.specs.Statements as spec;
ghost use Rattle.check_rules.specs.Typed.{Local};
ghost use Rattle.check_state.specs.Gives.{Gives};
ghost use Rattle.check_state.specs.Views as view;
ghost use Rattle.check_jumps.specs.Views.{arm_place};

use crate::arms::{is_unwinding, parameters_of};
use check_rules::CheckFault;
use check_scopes::Names;
use check_state::{ArmHere, ArmLabel, Around, Frame, Meaning, State, narrow, next};
use mesa_base::OutOfMemory;
use mesa_types::{FieldType, Home};
use std::alloc::Global;

/// The variables of an arm: their names, the first and how many.
#[derive(Drop)]
pub struct ArmPlace {
    pub scope: Names<Meaning>,
    pub first: u32,
    pub count: u32,
}

fn total(first: usize, second: usize) -> Result<usize, OutOfMemory>
    ensures { IfOk result (λ both. both ≡ first + second) }
{
    match first.checked_add(second) {
        Some(both) => Ok(both),
        None => Err(OutOfMemory),
    }
}

/// The number of the next variable of a procedure: behind its parameters, its results and its variables so far.
#[tactic(auto, unfolding(check_state::specs::Views::state, check_state::specs::Views::around))]
pub fn next_local(around: &Around<'_>, state: &State) -> Result<u32, OutOfMemory>
    ensures { IfOk result (λ number. number ≡ length (view.around around.now).takes + length (view.around around.now).gives + count_in (view.state state.now).variables) }
{
    let parameters = total(around.takes.len(), around.gives.len())?;
    narrow(total(parameters, state.variables.count())?)
}

#[tactic(auto, using(check_state::proofs::ScopeLaws::with_name_as, crate::proofs::FieldLaws::name_is, crate::proofs::FieldLaws::kind_is), unfolding(check_state::specs::Views::names))]
fn name_field(
    field: &FieldType,
    alloc: Global,
    scope: &mut Names<Meaning>,
    number: u32,
) -> Result<(), OutOfMemory>
    ensures { OnOk result (view.names scope.new ≡ spec.named_field (plain_field field.now).name (meaning.Variable (Local number) (plain_field field.now).kind) (view.names scope.old)) }
{
    match &field.name {
        None => Ok(()),
        Some(name) => {
            let kind = field.kind.copy(alloc)?;
            scope.declare(
                alloc,
                name.bytes(),
                Meaning::Variable(Home::Local(number), kind),
            )
        }
    }
}

/// The names of the fields as variables, the first with this number.
fn scope_of(fields: &[FieldType], alloc: Global, first: u32) -> Result<Names<Meaning>, OutOfMemory>
    ensures { IfOk result (λ scope. view.names scope ≡ spec.fields_from first (view.fields fields.now) nothing) }
{
    let mut scope = Names::new(alloc);
    let mut number = first;
    for field in fields {
        name_field(field, alloc, &mut scope, number)?;
        number = next(number)?;
    }
    Ok(scope)
}

fn place_of(fields: &[FieldType], alloc: Global, number: u32) -> Result<ArmPlace, OutOfMemory>
    ensures { IfOk result (λ made. arm_place made ≡ spec.arm_place (view.fields fields.now) number) }
{
    let count = narrow(fields.len())?;
    let first = if count == 0 { 0 } else { number };
    let scope = scope_of(fields, alloc, number)?;
    Ok(ArmPlace {
        scope,
        first,
        count,
    })
}

/// Variables of these types more, in order.
pub fn add_all(fields: &[FieldType], alloc: Global, frame: &mut Frame) -> Result<(), OutOfMemory>
    ensures { OnOk result (kinds_of frame.new.fields ≡ join (kinds_of frame.old.fields) (types.kinds_of (view.fields fields.now))) }
{
    for field in fields {
        frame.push(alloc, &field.kind)?;
    }
    Ok(())
}

/// The variables of an arm, which its procedure has from here on.
#[tactic(auto, unfolding(check_rules::specs::Statements::enter_arm, check_state::specs::Views::state))]
pub fn enter_arm(
    labels: &[ArmLabel],
    alloc: Global,
    around: &Around<'_>,
    state: &mut State,
) -> Result<ArmPlace, CheckFault>
    ensures { Gives arm_place (spec.enter_arm (view.around around.now) (map view.arm_label labels.now) (view.state state.old)) result (view.state state.new) }
{
    let parameters = parameters_of(labels);
    let number = next_local(around, state)?;
    add_all(parameters, alloc, &mut state.variables)?;
    Ok(place_of(parameters, alloc, number)?)
}

/// In an arm with these labels.
#[tactic(auto, unfolding(check_state::specs::Views::around))]
pub fn in_arm<'a>(labels: &'a [ArmLabel], around: &Around<'a>) -> Result<Around<'a>, OutOfMemory>
    ensures { IfOk result (λ inner. view.around inner ≡ around_rule.in_arm (map view.arm_label labels.now) (view.around around.now)) }
{
    let arms = next(around.arms)?;
    let unwinding = if is_unwinding(labels) {
        arms
    } else {
        around.unwinding
    };
    Ok(Around {
        arms,
        unwinding,
        arm: ArmHere::InArm(around.statement, labels),
        ..*around
    })
}
