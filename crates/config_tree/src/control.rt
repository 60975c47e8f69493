//! What the CONTROL list of a configuration starts.
ghost use Rattle.std.specs.Prelude.{◌≡◌, [], flat_map, IfOk, OnOk};
ghost use Rattle.config_rules.specs.Grown.{once};
ghost use Rattle.config_tree.specs.Started.{AreStarted, added, started_at};

use check_scopes::Index;
use indexmap::IndexSet;
use mesa_base::{Identifier, List, Name, Numbers, OutOfMemory};
use std::alloc::Global;

fn add_all(started: &mut IndexSet<u32>, numbers: &[u32]) -> Result<(), OutOfMemory>
    ensures { OnOk result (started.new.keys ≡ added started.old.keys numbers.now) }
{
    for number in numbers {
        started.insert(*number)?;
    }
    Ok(())
}

// A name that stands once more starts nothing more: so a list of many names for many instances takes as many steps as it has names.
fn start(
    alloc: Global,
    starts: &Index<Numbers>,
    name: &Name,
    done: &mut Index<()>,
    started: &mut IndexSet<u32>,
) -> Result<(), OutOfMemory>
    requires { AreStarted starts.now done.old started.old.keys }
    ensures started { OnOk result (started.new.keys ≡ added started.old.keys (started_at starts.now name.now)) }
    ensures done { OnOk result (AreStarted starts.now done.new started.new.keys) }
{
    if done.has(name.bytes()) {
        return Ok(());
    }
    done.declare(alloc, name.bytes(), ())?;
    match starts.get(name.bytes()) {
        Some(numbers) => add_all(started, numbers.as_slice()),
        None => Ok(()),
    }
}

/// The numbers of what the names start, each once, at its first place. Each name and each number is looked up once.
pub fn control(
    alloc: Global,
    starts: &Index<Numbers>,
    names: &[Identifier],
) -> Result<Numbers, OutOfMemory>
    ensures { IfOk result (λ control. control ≡ once [] (flat_map (λ i. started_at starts.now i.name) names.now)) }
{
    let mut done = Index::new(alloc);
    let mut started = IndexSet::new(alloc);
    for identifier in names {
        start(alloc, starts, &identifier.name, &mut done, &mut started)?;
    }
    List::from_slice(alloc, started.as_slice())
}
