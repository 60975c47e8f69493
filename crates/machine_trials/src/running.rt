//! Runs of images over objects in memory, and what they left.

ghost use Rattle.std.specs.Prelude.{◌≡◌, ◌<◌};

use crate::building::{Module, Program, alone, machine_of};
use frame_machine::{Outcome, RunFault, run};
use held_trees::LetGo;
use machine_ready::Machine;
use machine_rules::End;
use mesa_base::{Bytes, List, MemorySink, MemorySource, OutOfMemory, Source, Steps};
use std::alloc::Global;
use std::marker::Brand;
use std::process::Abort;
use std::sync::ledger::{Blank, Ledger};
use std::test::Fail;

/// What a run is given: its turns, its input, the numbers of the reads and of the writes that fail, and the room of its output.
#[derive(Clone, Copy)]
pub struct Given<'a> {
    pub turns: u64,
    pub input: &'a str,
    pub reads: &'a [u32],
    pub writes: &'a [u32],
    pub room: usize,
}

/// So many turns and this input, where no call fails.
pub fn with_turns<'a>(turns: u64, input: &'a str) -> Given<'a> {
    Given {
        turns,
        input,
        reads: &[],
        writes: &[],
        room: 4096,
    }
}

/// What a run left: what it told, what was printed, and the next byte of its input.
#[derive(Drop)]
pub struct Left {
    pub told: Result<Outcome, RunFault>,
    pub out: Bytes,
    pub next: Option<u8>,
}

fn counted<L: Ledger>(
    blank: Blank,
    machine: &mut Machine,
    turns: u64,
    input: &mut MemorySource,
    out: &mut MemorySink,
) -> Result<Outcome, RunFault>
    requires name { blank.name ≡ L.name }
    requires parts { blank.parts ≡ L.parts }
    requires some { 0 < blank.parts }
{
    let mut steps = Steps::<L>::new(blank);
    run(machine, turns, input, out, &mut steps)
}

fn next_of(input: &mut MemorySource) -> Option<u8> {
    match input.next() {
        Ok(byte) => byte,
        Err(_) => None,
    }
}

/// Runs the machine.
pub fn ran(alloc: Global, machine: &mut Machine, given: &Given<'_>) -> Result<Left, OutOfMemory> {
    let reads = List::from_slice(alloc, given.reads)?;
    let mut input = MemorySource::new(alloc, given.input.as_bytes(), reads)?;
    let writes = List::from_slice(alloc, given.writes)?;
    let mut out = MemorySink::new(alloc, given.room, writes)?;
    let told = counted::<Brand>(Blank::new(1), machine, given.turns, &mut input, &mut out);
    let out = List::from_slice(alloc, out.bytes())?;
    Ok(Left {
        told,
        out,
        next: next_of(&mut input),
    })
}

/// Whether a run ended so, with so many turns left, and printed this.
pub fn is_left(left: &Left, end: End, turns: u64, out: &str) -> bool {
    match left.told {
        Ok(outcome) => {
            outcome.end == end && outcome.left == turns && left.out.as_slice() == out.as_bytes()
        }
        Err(_) => false,
    }
}

/// Whether a run broke off so, and printed this.
pub fn is_broken(left: &Left, fault: RunFault, out: &str) -> bool {
    match left.told {
        Ok(_) => false,
        Err(told) => told == fault && left.out.as_slice() == out.as_bytes(),
    }
}

// Whether a run spent its turns, and printed the beginning of this, as much at least as a run with fewer turns.
fn is_cut(left: &Left, out: &str, least: usize) -> bool {
    match left.told {
        Ok(outcome) => {
            outcome.end == End::Spent
                && outcome.left == 0
                && least <= left.out.len()
                && out.as_bytes().starts_with(left.out.as_slice())
        }
        Err(_) => false,
    }
}

/// A program with its input, the least turns with which its end is reached, what it prints, and its end.
#[derive(Clone, Copy)]
pub struct Trial<'a> {
    pub program: Program<'a>,
    pub input: &'a str,
    pub turns: u64,
    pub out: &'a str,
    pub end: End,
}

// With fewer turns the run is cut, and each prints what those with fewer turns do, and maybe more.
fn cut_at_each(
    rt: &impl Abort,
    alloc: Global,
    machine: &mut Machine,
    trial: &Trial<'_>,
) -> Result<(), Fail> {
    let mut printed = 0;
    for turns in 0..trial.turns {
        let left = ran(alloc, machine, &with_turns(turns, trial.input))?;
        assert!(rt;
            is_cut(&left, trial.out, printed),
            "{turns} turns for {}",
            trial.out
        );
        printed = left.out.len();
    }
    Ok(())
}

fn ended_at(
    rt: &impl Abort,
    alloc: Global,
    machine: &mut Machine,
    trial: &Trial<'_>,
) -> Result<(), Fail> {
    for more in [0u64, 1, 1_000_000] {
        let turns = trial.turns.saturating_add(more);
        let left = ran(alloc, machine, &with_turns(turns, trial.input))?;
        assert!(rt;
            is_left(&left, trial.end, more, trial.out),
            "{turns} turns for {}",
            trial.out
        );
    }
    Ok(())
}

/// Runs the program with its turns and more, and no others.
pub fn ends(rt: &impl Abort, alloc: Global, trial: &Trial<'_>) -> Result<(), Fail> {
    let mut machine = machine_of(alloc, &trial.program)?;
    let answer = ended_at(rt, alloc, &mut machine, trial);
    machine.let_go();
    answer
}

fn tried_with(
    rt: &impl Abort,
    alloc: Global,
    machine: &mut Machine,
    trial: &Trial<'_>,
) -> Result<(), Fail> {
    cut_at_each(rt, alloc, machine, trial)?;
    ended_at(rt, alloc, machine, trial)
}

/// Runs the program with each number of turns up to its own, and with more; on one machine.
pub fn tried(rt: &impl Abort, alloc: Global, trial: &Trial<'_>) -> Result<(), Fail> {
    let mut machine = machine_of(alloc, &trial.program)?;
    let answer = tried_with(rt, alloc, &mut machine, trial);
    machine.let_go();
    answer
}

/// A program of one module, with its input, its least turns, what it prints and its end.
#[derive(Clone, Copy)]
pub struct Alone<'a> {
    pub module: Module<'a>,
    pub input: &'a str,
    pub turns: u64,
    pub out: &'a str,
    pub end: End,
}

/// The same of one module alone, of which there is one instance.
pub fn tried_alone(rt: &impl Abort, alloc: Global, row: &Alone<'_>) -> Result<(), Fail> {
    let modules = [row.module];
    tried(
        rt,
        alloc,
        &Trial {
            program: alone(&modules),
            input: row.input,
            turns: row.turns,
            out: row.out,
            end: row.end,
        },
    )
}
