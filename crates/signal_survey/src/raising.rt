//! Where signals are raised.

ghost use Rattle.std.specs.Prelude.{◌≡◌, ◌↔◌, Some, IfOk, OnOk, []};
ghost use Rattle.signaller.specs.declared.signal_id.SignalId.{SignalId as TheSignal};
ghost use Rattle.machine_rules.specs.Steps.{host_signal};
ghost use Rattle.machine_ready.specs.Order.{ImageInOrder};
ghost use Rattle.survey_code.specs.Events.{LinkRaises, LinkReads, RaisesBy};
ghost use Rattle.signal_survey.specs.Adding.{Adds, Of};
ghost use Rattle.signal_survey.specs.Graph.{AreSurveyed, HoldsRaisers};
ghost use Rattle.signal_survey.specs.Happenings.{IsRaiser};

use crate::coming::{column_of, row_of};
use crate::graph::Surveys;
use crate::happening::{Happening, happenings};
use crate::linking::{bound_to, reads};
use crate::shapes::empty_raisers;
use mesa_base::{List, OutOfMemory};
use object_files::{Image, Link};
use place_walks::{Edge, Place, Table, fill};
use signaller::SignalId;
use std::alloc::Global;
use survey_code::{Event, raises_by_event};

#[tactic(auto, unfolding(machine_rules::specs::Steps::host_signal))]
fn host_signal(fault: u8) -> Option<SignalId>
    ensures { result ≡ host_signal fault }
{
    match fault {
        0 => Some(SignalId::BoundsFault),
        1 => Some(SignalId::ZeroDivisor),
        2 => Some(SignalId::Unnamed),
        _ => None,
    }
}

// The signal of a link that is raised.
fn link_raised(bound: Option<Link>) -> Option<SignalId>
    ensures { (s : TheSignal) → (result ≡ Some s) ↔ LinkRaises bound s }
{
    match bound {
        None => None,
        Some(Link::Wanted(_)) => Some(SignalId::NoInput),
        Some(Link::To { instance, number }) => Some(SignalId::Own(instance, number)),
    }
}

// The signal of a link that is called: that of the host's ReadChar.
fn link_read(image: &Image, bound: Option<Link>) -> Option<SignalId>
    ensures { (s : TheSignal) → (result ≡ Some s) ↔ LinkReads image.now bound s }
{
    match bound {
        Some(Link::Wanted(wanted)) if reads(image, wanted) => Some(SignalId::NoInput),
        _ => None,
    }
}

// What an event of an instance raises.
fn event_signal(image: &Image, instance: u32, event: Event) -> Option<SignalId>
    ensures { (s : TheSignal) → (result ≡ Some s) ↔ RaisesBy image.now instance event s }
{
    match event {
        Event::Raise(number) => Some(SignalId::Own(instance, number)),
        Event::RaiseLink(link) => link_raised(bound_to(image, instance, link)),
        Event::RaiseHost(fault) => host_signal(fault),
        Event::PassBounds => Some(SignalId::BoundsFault),
        Event::Divide => Some(SignalId::ZeroDivisor),
        Event::Call(_) => None,
        Event::CallLink(link) => link_read(image, bound_to(image, instance, link)),
    }
}

fn add_raiser(image: &Image, it: &Happening, edges: &mut List<Edge>) -> Result<(), OutOfMemory>
    ensures { OnOk result (Adds (IsRaiser image.now it.now) edges.old edges.new) }
{
    if let Some(signal) = event_signal(image, it.place.instance, it.event) {
        edges.push(Edge {
            row: row_of(signal),
            column: column_of(signal),
            to: it.place,
        })?;
    }
    Ok(())
}

fn raiser_edges(alloc: Global, image: &Image, list: &[Happening]) -> Result<List<Edge>, OutOfMemory>
    ensures { IfOk result (Adds (Of (IsRaiser image.now) list.now) []) }
{
    let mut edges = List::new(alloc);
    for it in list {
        add_raiser(image, it, &mut edges)?;
    }
    Ok(edges)
}

/// The places at which each signal is raised.
pub(crate) fn raisers_of(
    alloc: Global,
    image: &Image,
    surveys: &Surveys,
) -> Result<Table<Place>, OutOfMemory>
    requires order { ImageInOrder image.now }
    requires surveyed { AreSurveyed image.now surveys.now }
    ensures { IfOk result (λ table. HoldsRaisers image.now table) }
{
    raises_by_event();
    let list = happenings(alloc, image, surveys)?;
    let edges = raiser_edges(alloc, image, list.as_slice())?;
    let mut table = empty_raisers(alloc, image)?;
    fill(&mut table, edges.as_slice())?;
    Ok(table)
}
