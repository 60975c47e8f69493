//! Names that must differ from each other and from those before them.
ghost use Rattle.std.specs.Prelude.{◌≡◌, ◌++◌, ℕ, List, IfOk, OnOk};
ghost use Rattle.check_rules.specs.Parts as parts;
ghost use Rattle.check_rules.specs.Statements as spec;
ghost use Rattle.check_state.specs.Gives.{GivesOnly};
ghost use Rattle.check_declared.specs.Naming.{HasNames};

use check_rules::{Cause, CheckFault};
use check_scopes::Names;
use check_state::next;
use mesa_base::{Identifier, List, Numbers, OutOfMemory};
use std::alloc::Global;
use syntax_trees::syntax::RepeatLabels;

/// No name stands twice, or among those of the index, which has them all from here on.
pub fn different(
    names: &[Identifier],
    alloc: Global,
    taken: &mut Names<bool>,
) -> Result<(), CheckFault>
    ensures outcome { (before : List (List ℕ)) → HasNames taken.old before → GivesOnly (λ _. tt) (parts.distinct before names.now) result }
    ensures taken { OnOk result ((before : List (List ℕ)) → HasNames taken.old before → HasNames taken.new (before ++ parts.names_of names.now)) }
{
    for name in names {
        if taken.has(name.name.bytes()) {
            return Err(CheckFault::At(Cause::TwiceDeclared, name.place));
        }
        taken.declare(alloc, name.name.bytes(), true)?;
    }
    Ok(())
}

/// No label of a REPEAT stands twice, and FINISHED not either.
pub fn new_labels(
    labels: &RepeatLabels,
    alloc: Global,
    taken: &mut Names<bool>,
    is_finished: bool,
) -> Result<(), CheckFault>
    ensures outcome { (before : List (List ℕ)) → HasNames taken.old before → GivesOnly (λ _. tt) (spec.new_labels before is_finished labels.now) result }
    ensures taken { OnOk result ((before : List (List ℕ)) → HasNames taken.old before → HasNames taken.new (before ++ parts.names_of (spec.labels_of labels.now))) }
{
    match labels {
        RepeatLabels::Named(names) => different(names.as_slice(), alloc, taken),
        RepeatLabels::Finished(place) => {
            if is_finished {
                Err(CheckFault::At(Cause::TwiceDeclared, *place))
            } else {
                Ok(())
            }
        }
    }
}

/// The numbers of labels, from the first on.
pub fn numbers_from(names: &[Identifier], alloc: Global, first: u32) -> Result<Numbers, OutOfMemory>
    ensures { IfOk result (λ made. made ≡ spec.numbers_from first names.now) }
{
    let mut numbers = List::new(alloc);
    let mut number = first;
    for _name in names {
        numbers.push(number)?;
        number = next(number)?;
    }
    Ok(numbers)
}
