//! What is chosen for each wanted item of an image.

ghost use Rattle.std.specs.Prelude.{◌≡◌, ◌≢◌, ◌⊎◌, IfErr, IfOk, Ok, Err};
ghost use Rattle.loader_rules.specs.declared.fault.LoadFault.{LoadFault as Fault};
ghost use Rattle.loader_rules.specs.Wanted.{is_built_in};
ghost use Rattle.load_checks.specs.Choosing.{AreChoices, Bad, choice_of, choice_shown};
ghost use Rattle.load_checks.specs.Turns.{IsSeen, part_of};

use crate::exporters::Exporter;
use crate::faults::{missing, twice};
use crate::key::key_of;
use crate::turn::{Seen, Turn};
use interface_records::Wanted;
use loader_rules::LoadFault;
use mesa_base::{Name, OutOfMemory};
use std::alloc::Global;

/// What is chosen for the first wanted items of an image: nothing for one of the built-in interface, else the one who offers it. Where not
/// for all of them, the fault of the next.
#[derive(Drop)]
pub struct Choices<'a> {
    pub chosen: Vec<Option<Exporter<'a>>>,
    pub fault: Option<LoadFault>,
}

/// It is the built-in interface.
pub fn is_built_in(name: &Name) -> bool
    ensures { result ≡ is_built_in name.now }
{
    name.bytes() == b"IODefs".as_slice()
}

fn bad<'a>(fault: Result<LoadFault, OutOfMemory>) -> Result<Option<Exporter<'a>>, LoadFault>
    ensures { (result ≡ Err LoadFault.Memory) ⊎ ((f : Fault) × (fault ≡ Ok f) × (result ≡ Err f)) }
{
    match fault {
        Ok(fault) => Err(fault),
        Err(OutOfMemory) => Err(LoadFault::Memory),
    }
}

fn choose<'a>(
    alloc: Global,
    turn: &Turn<'a>,
    seen: &Seen<'a>,
    wanted: &Wanted,
) -> Result<Option<Exporter<'a>>, LoadFault>
    requires { IsSeen turn.now.before.now seen.now }
    ensures ok { IfOk result (λ chosen. choice_of (part_of turn.now) wanted.now ≡ choice_shown chosen) }
    ensures err { IfErr result (λ e. e ≢ LoadFault.Memory → choice_of (part_of turn.now) wanted.now ≡ Bad e) }
{
    if is_built_in(&wanted.face) {
        return Ok(None);
    }
    let key = key_of(alloc, wanted)?;
    match seen.index.get(&key) {
        None => bad(missing(alloc, turn.before, seen.images, wanted)),
        Some(found) => match &found.second {
            None => Ok(Some(found.first)),
            Some(second) => bad(twice(alloc, seen.images, wanted, &found.first, second)),
        },
    }
}

/// What is chosen for each, up to the first with a fault.
pub fn choose_all<'a>(
    alloc: Global,
    turn: &Turn<'a>,
    seen: &Seen<'a>,
) -> Result<Choices<'a>, OutOfMemory>
    requires { IsSeen turn.now.before.now seen.now }
    ensures { IfOk result (AreChoices (part_of turn.now)) }
{
    let mut chosen = Vec::new(alloc);
    for wanted in turn.image.wanted.as_slice() {
        match choose(alloc, turn, seen, wanted) {
            Ok(choice) => chosen.push(choice)?,
            Err(fault) => {
                let fault = Some(fault);
                return Ok(Choices { chosen, fault });
            }
        }
    }
    Ok(Choices {
        chosen,
        fault: None,
    })
}
