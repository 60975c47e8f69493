//! The sweep over a table of phrases that gives its segments.
ghost use Rattle.std.specs.Prelude.{◌≡◌, [], ◌∷◌, ◌++◌, ℕ, ◌+◌, ◌-◌, ◌*◌, ◌^◌, ◌<◌, ◌≤◌, length, List, IfOk, OnOk, IsTrue, false, slice_index, slice_index_or};
ghost use Rattle.std.specs.List.Sorted.{IsNonDecreasingBy};
ghost use Rattle.code_forms.specs.declared.module_code.Phrase.{Phrase};
ghost use Rattle.signaller.specs.Index.{Indexes};
ghost use Rattle.signaller.specs.Search.{innermost_of};
ghost use Rattle.signaller.specs.Sweep.{AreEdges, BeginLater, GoesOn, Sweeps, AreTold, HasStart, IsSwept};

use crate::catch_index::Segment;
use code_forms::Phrase;
use code_forms::mesa_base::OutOfMemory;
use std::alloc::Global;

/// The phrases that are open, the next one to be opened, the offset to which the sweep has come, and the segments up to it.
#[derive(Drop)]
pub struct Sweep {
    pub opened: Vec<u32>,
    pub next: usize,
    pub at: u32,
    pub segments: Vec<Segment>,
}

// Where ranges begin and end, in order.
fn edges_of(alloc: Global, table: &[Phrase]) -> Result<Vec<u32>, OutOfMemory>
    ensures { IfOk result (λ edges. AreEdges table.now edges.items) }
{
    let mut edges = Vec::new(alloc);
    for phrase in table {
        edges.push(phrase.from)?;
        edges.push(phrase.to)?;
    }
    edges.sort_unstable();
    Ok(edges)
}

// Opens the phrases that begin at the offset or before it, from one on; it gives the number of the next one after them.
fn open_upto(
    table: &[Phrase],
    opened: &mut Vec<u32>,
    first: usize,
    at: u32,
) -> Result<usize, OutOfMemory>
    requires few { length table.now < 2 ^ 32 }
    requires sweeps { Sweeps table.now opened.old.items first at }
    ensures sweeps { IfOk result (λ next. Sweeps table.now opened.new.items next at) }
    ensures next { IfOk result (λ next. BeginLater table.now next at) }
{
    let mut next = first;
    'opening: while next < table.len() && table[next].from <= at {
        opened.push(next as u32)?;
        next += 1;
    }
    Ok(next)
}

// Whether the innermost of the open phrases ends at the offset or before it.
fn is_over(table: &[Phrase], opened: &[u32], at: u32) -> bool
    requires { (j : ℕ) → j < length opened.now → slice_index opened.now j < length table.now }
    ensures over { IsTrue result → (0 < length opened.now) × ((d : Phrase) → (slice_index_or table.now (slice_index opened.now (length opened.now - 1)) d).to ≤ at) }
    ensures stays { result ≡ false → GoesOn table.now opened.now at }
{
    if opened.is_empty() {
        return false;
    }
    table[opened[opened.len() - 1] as usize].to <= at
}

// Closes the phrases that end at the offset or before it, until the innermost one does not.
fn close(table: &[Phrase], opened: &mut Vec<u32>, next: usize, at: u32)
    requires { Sweeps table.now opened.old.items next at }
    ensures sweeps { Sweeps table.now opened.new.items next at }
    ensures stays { GoesOn table.now opened.new.items at }
{
    'closing: while is_over(table, opened.as_slice(), at) {
        let _ = opened.pop();
    }
}

// The innermost of the open phrases.
fn innermost_open(table: &[Phrase], opened: &[u32], next: usize, at: u32) -> Option<u32>
    requires sorted { IsNonDecreasingBy (λ p. p.from) table.now }
    requires sweeps { Sweeps table.now opened.now next at }
    requires later { BeginLater table.now next at }
    requires stays { GoesOn table.now opened.now at }
    ensures { result ≡ innermost_of table.now at }
{
    if opened.is_empty() {
        return None;
    }
    Some(opened[opened.len() - 1])
}

// Comes to the offset, where a segment begins.
fn advance(table: &[Phrase], sweep: &mut Sweep, at: u32) -> Result<(), OutOfMemory>
    requires few { length table.now < 2 ^ 32 }
    requires sorted { IsNonDecreasingBy (λ p. p.from) table.now }
    requires sweeps { Sweeps table.now sweep.old.opened.items sweep.old.next at }
    ensures opened { OnOk result (Sweeps table.now sweep.new.opened.items sweep.new.next at) }
    ensures later { OnOk result (BeginLater table.now sweep.new.next at) }
    ensures at { OnOk result (sweep.new.at ≡ at) }
    ensures segment { OnOk result (sweep.new.segments.items ≡ sweep.old.segments.items ++ record { start = at; phrase = innermost_of table.now at } ∷ []) }
{
    let next = open_upto(table, &mut sweep.opened, sweep.next, at)?;
    close(table, &mut sweep.opened, next, at);
    let phrase = innermost_open(table, sweep.opened.as_slice(), next, at);
    sweep.next = next;
    sweep.at = at;
    sweep.segments.push(Segment { start: at, phrase })?;
    Ok(())
}

// Comes to the next edge.
fn turn(table: &[Phrase], sweep: &mut Sweep, at: u32) -> Result<(), OutOfMemory>
    requires few { length table.now < 2 ^ 32 }
    requires sorted { IsNonDecreasingBy (λ p. p.from) table.now }
    requires later { sweep.old.at ≤ at }
    requires swept { IsSwept table.now sweep.old }
    ensures swept { OnOk result (IsSwept table.now sweep.new) }
    ensures at { OnOk result (sweep.new.at ≡ at) }
    ensures start { OnOk result (HasStart sweep.new.segments.items at) }
    ensures kept { OnOk result ((edge : ℕ) → HasStart sweep.old.segments.items edge → HasStart sweep.new.segments.items edge) }
    ensures count { OnOk result (length sweep.new.segments.items ≤ length sweep.old.segments.items + 1) }
{
    if sweep.at == at {
        return Ok(());
    }
    match advance(table, sweep, at) {
        Ok(()) => Ok(()),
        Err(fault) => Err(fault),
    }
}

/// The segments of a table.
pub fn segments_of(alloc: Global, table: &[Phrase]) -> Result<Vec<Segment>, OutOfMemory>
    requires few { length table.now < 2 ^ 32 }
    requires sorted { IsNonDecreasingBy (λ p. p.from) table.now }
    ensures { IfOk result (λ segments. Indexes table.now segments.items) }
{
    let edges = edges_of(alloc, table)?;
    let mut sweep = Sweep {
        opened: Vec::new(alloc),
        next: 0,
        at: 0,
        segments: Vec::new(alloc),
    };
    advance(table, &mut sweep, 0)?;
    for i in 0..edges.len() {
        turn(table, &mut sweep, edges[i])?;
    }
    let Sweep { segments, .. } = sweep;
    Ok(segments)
}
