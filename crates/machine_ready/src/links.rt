//! How instances read the links of labels.

ghost use Rattle.std.specs.Prelude.{◌≡◌, ℕ, ◌<◌, ◌≤◌, length, Some, IfOk, slice_get};
ghost use Rattle.machine_rules.specs.LookUps.{links_of, signal_bound, signals_bound};
ghost use Rattle.machine_ready.specs.Order.{ImageInOrder};

use crate::globals::code_of;
use code_forms::{CodeKind, CodeLink};
use mesa_base::{List, OutOfMemory};
use object_files::{Image, Link};
use signaller::{LinkSignals, Links, SignalId};
use std::alloc::Global;

// The signal for which a link of a kind stands.
#[tactic(auto, unfolding(machine_rules::specs::LookUps::signal_bound))]
fn signal_bound(kind: CodeKind, bound: Link) -> Option<SignalId>
    ensures { result ≡ signal_bound kind bound }
{
    let signal = match bound {
        Link::Wanted(_) => SignalId::NoInput,
        Link::To { instance, number } => SignalId::Own(instance, number),
    };
    match kind {
        CodeKind::Procedure => None,
        CodeKind::Signal | CodeKind::Error => Some(signal),
    }
}

fn signals_bound(
    alloc: Global,
    links: &[CodeLink],
    table: &[Link],
) -> Result<LinkSignals, OutOfMemory>
    requires { length links.now ≤ length table.now }
    ensures { IfOk result (λ signals. signals ≡ signals_bound links.now table.now) }
{
    let mut signals = List::new(alloc);
    for number in 0..links.len() {
        signals.push(signal_bound(links[number].kind, table[number]))?;
    }
    Ok(signals)
}

fn links_of(alloc: Global, image: &Image, number: usize) -> Result<Links, OutOfMemory>
    requires order { ImageInOrder image.now }
    requires there { number < length image.now.instances }
    ensures { IfOk result (λ links. links ≡ links_of image.now number) }
{
    let code = code_of(image, number);
    let table = image.links.as_slice()[number].as_slice();
    Ok(Links {
        instance: number as u32,
        signals: signals_bound(alloc, code.links.as_slice(), table)?,
    })
}

/// For each instance how it reads the links of labels.
pub fn all_links(alloc: Global, image: &Image) -> Result<List<Links>, OutOfMemory>
    requires { ImageInOrder image.now }
    ensures { IfOk result (λ links. (j : ℕ) → j < length image.now.instances → slice_get links j ≡ Some (links_of image.now j)) }
{
    let mut links = List::new(alloc);
    for number in 0..image.instances.len() {
        links.push(links_of(alloc, image, number)?)?;
    }
    Ok(links)
}
