//! Where what comes out of procedures comes.

ghost use Rattle.std.specs.Prelude.{◌≡◌, ◌↔◌, ℕ, Some, IfOk, OnOk, []};
ghost use Rattle.machine_ready.specs.Order.{ImageInOrder};
ghost use Rattle.survey_code.specs.Events.{CallsBy, LinkCalls};
ghost use Rattle.signal_survey.specs.Adding.{Adds, Of};
ghost use Rattle.signal_survey.specs.Graph.{AreSurveyed, HoldsCallers};
ghost use Rattle.signal_survey.specs.Happenings.{IsCaller, callee};

use crate::graph::Surveys;
use crate::happening::{Happening, happenings};
use crate::linking::bound_to;
use crate::shapes::empty_callers;
use mesa_base::{List, OutOfMemory};
use object_files::{Image, Link};
use place_walks::{Edge, Place, Table, fill};
use std::alloc::Global;
use survey_code::{Event, calls_by_event};

/// A procedure of an instance that is called.
#[derive(Clone, Copy)]
pub struct Callee {
    pub instance: u32,
    pub procedure: u32,
}

// What a link that is called calls.
fn link_called(bound: Option<Link>) -> Option<Callee>
    ensures { (j q : ℕ) → (result ≡ Some (callee j q)) ↔ LinkCalls bound j q }
{
    match bound {
        Some(Link::To { instance, number }) => Some(Callee {
            instance,
            procedure: number,
        }),
        _ => None,
    }
}

// What an event of an instance calls.
fn event_callee(image: &Image, instance: u32, event: Event) -> Option<Callee>
    ensures { (j q : ℕ) → (result ≡ Some (callee j q)) ↔ CallsBy image.now instance event j q }
{
    match event {
        Event::Call(procedure) => Some(Callee {
            instance,
            procedure,
        }),
        Event::CallLink(link) => link_called(bound_to(image, instance, link)),
        _ => None,
    }
}

// A call of another instance also runs its body, where it was not started.
fn add_caller(image: &Image, it: &Happening, edges: &mut List<Edge>) -> Result<(), OutOfMemory>
    ensures { OnOk result (Adds (IsCaller image.now it.now) edges.old edges.new) }
{
    let Some(callee) = event_callee(image, it.place.instance, it.event) else {
        return Ok(());
    };
    edges.push(Edge {
        row: callee.instance as usize,
        column: callee.procedure as usize,
        to: it.place,
    })?;
    if callee.instance != it.place.instance {
        edges.push(Edge {
            row: callee.instance as usize,
            column: 0,
            to: it.place,
        })?;
    }
    Ok(())
}

fn caller_edges(alloc: Global, image: &Image, list: &[Happening]) -> Result<List<Edge>, OutOfMemory>
    ensures { IfOk result (Adds (Of (IsCaller image.now) list.now) []) }
{
    let mut edges = List::new(alloc);
    for it in list {
        add_caller(image, it, &mut edges)?;
    }
    Ok(edges)
}

/// The places to which what comes out of each procedure comes.
pub(crate) fn callers_of(
    alloc: Global,
    image: &Image,
    surveys: &Surveys,
) -> Result<Table<Place>, OutOfMemory>
    requires order { ImageInOrder image.now }
    requires surveyed { AreSurveyed image.now surveys.now }
    ensures { IfOk result (λ table. HoldsCallers image.now table) }
{
    calls_by_event();
    let list = happenings(alloc, image, surveys)?;
    let edges = caller_edges(alloc, image, list.as_slice())?;
    let mut table = empty_callers(alloc, image)?;
    fill(&mut table, edges.as_slice())?;
    Ok(table)
}
