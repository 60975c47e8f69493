//! Parameters and results as variables of their body.
ghost use Rattle.std.specs.Prelude.{◌≡◌, ◌+◌, length, IfOk, OnOk};
ghost use Rattle.check_rules.specs.Meanings as meaning;
ghost use Rattle.interface_records.specs.PlainTypes.{plain_field};
ghost use Rattle.check_rules.specs.Programs as program;
ghost use Rattle.check_rules.specs.Statements as spec;
ghost use Rattle.check_rules.specs.Typed.{Local};
ghost use Rattle.check_state.specs.Views as view;

use check_scopes::Names;
use check_state::{Meaning, next};
use mesa_base::OutOfMemory;
use mesa_types::{FieldType, Home};
use std::alloc::Global;

#[tactic(auto, using(check_state::proofs::ScopeLaws::with_name_as, check_jumps::proofs::FieldLaws::name_is, check_jumps::proofs::FieldLaws::kind_is), unfolding(check_state::specs::Views::names))]
fn name_field(
    field: &FieldType,
    alloc: Global,
    scope: &mut Names<Meaning>,
    number: u32,
) -> Result<(), OutOfMemory>
    ensures { OnOk result (view.names scope.new ≡ spec.named_field (plain_field field.now).name (meaning.Variable (Local number) (plain_field field.now).kind) (view.names scope.old)) }
{
    match &field.name {
        None => Ok(()),
        Some(name) => {
            let kind = field.kind.copy(alloc)?;
            scope.declare(
                alloc,
                name.bytes(),
                Meaning::Variable(Home::Local(number), kind),
            )
        }
    }
}

fn name_fields(
    fields: &[FieldType],
    alloc: Global,
    scope: &mut Names<Meaning>,
    first: u32,
) -> Result<u32, OutOfMemory>
    ensures number { IfOk result (λ number. number ≡ first + length (view.fields fields.now)) }
    ensures scope { OnOk result (view.names scope.new ≡ spec.fields_from first (view.fields fields.now) (view.names scope.old)) }
{
    let mut number = first;
    for field in fields {
        name_field(field, alloc, scope, number)?;
        number = next(number)?;
    }
    Ok(number)
}

/// The names of parameters and results mean variables in the scope, those of results behind.
#[tactic(auto, using(crate::proofs::HeadingLaws::own_scope_is))]
pub(crate) fn name_parameters(
    takes: &[FieldType],
    gives: &[FieldType],
    alloc: Global,
    scope: &mut Names<Meaning>,
) -> Result<(), OutOfMemory>
    ensures { OnOk result (view.names scope.new ≡ program.own_scope (view.fields takes.now) (view.fields gives.now) (view.names scope.old)) }
{
    let number = name_fields(takes, alloc, scope, 0)?;
    name_fields(gives, alloc, scope, number)?;
    Ok(())
}
