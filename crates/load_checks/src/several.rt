//! The first fault of several images.

ghost use Rattle.std.specs.Prelude.{◌≡◌, ◌≢◌, ◌≤◌, [], IfErr, IfOk, IsOk, OnOk, Err, Some, length, map};
ghost use Rattle.loader_rules.specs.declared.fault.LoadFault.{LoadFault as Fault};
ghost use Rattle.loader_rules.specs.declared.limits.TheConstants.{MOST_IMAGES};
ghost use Rattle.loader_rules.specs.LoadFaults.{HasLoadFault, faults_in, first_of, load_faults};
ghost use Rattle.load_checks.specs.Choosing.{choice_of, choices_shown};
ghost use Rattle.load_checks.specs.Turns.{after, part_of, IsSeen};

use crate::checking::checked;
use crate::exporters::Exporter;
use crate::turn::{Seen, Turn, nothing_seen, see};
use loader_rules::{Images, LoadFault};
use object_files::Image;
use std::alloc::Global;

/// What is chosen for each wanted item of the image whose turn it is, which then is one of those before; or its first fault.
pub fn take_in<'a>(
    alloc: Global,
    turn: &Turn<'a>,
    seen: &mut Seen<'a>,
) -> Result<Vec<Option<Exporter<'a>>>, LoadFault>
    requires seen { IsSeen turn.now.before.now seen.old }
    requires few { length turn.now.before.now ≤ 15 }
    ensures seen { OnOk result (IsSeen (after (part_of turn.now)) seen.new) }
    ensures none { OnOk result (faults_in (part_of turn.now) ≡ []) }
    ensures chosen { IfOk result (λ chosen. choices_shown chosen.items ≡ map (choice_of (part_of turn.now)) turn.now.image.now.wanted) }
    ensures err { IfErr result (λ e. e ≢ LoadFault.Memory → first_of (faults_in (part_of turn.now)) ≡ Some e) }
{
    let chosen = checked(alloc, turn, seen)?;
    see(alloc, turn, seen)?;
    Ok(chosen)
}

fn check_all(alloc: Global, images: &[Image]) -> Result<(), LoadFault>
    requires few { length images.now ≤ MOST_IMAGES }
    ensures none { OnOk result (load_faults images.now ≡ []) }
    ensures err { IfErr result (λ e. e ≢ LoadFault.Memory → HasLoadFault images.now e) }
{
    let mut seen = nothing_seen(alloc);
    for (at, image) in images.iter().enumerate() {
        let turn = Turn {
            before: &images[..at],
            image,
        };
        let _chosen = take_in(alloc, &turn, &mut seen)?;
    }
    Ok(())
}

/// The first fault of the first of at most 16 images that has one; Ok where none has one. What the images still want is not looked at.
pub fn first_fault(alloc: Global, images: &Images) -> Result<(), LoadFault>
    requires { length images.now.items ≤ MOST_IMAGES }
    ensures none { OnOk result (load_faults images.now.items ≡ []) }
    ensures fault { IfErr result (λ e. e ≢ LoadFault.Memory → HasLoadFault images.now.items e) }
    ensures only { load_faults images.now.items ≡ [] → result ≢ Err LoadFault.Memory → IsOk result }
    ensures first { (e : Fault) → HasLoadFault images.now.items e → result ≢ Err LoadFault.Memory → result ≡ Err e }
{
    check_all(alloc, images.as_slice())
}
