//! Reads and writes that fail, and the run of the same machine after them.

use crate::building::{
    AT_END, GET, Module, Own, PUT, PUT_NUMBER, PUT_TEXT, alone, machine_of, working,
};
use crate::running::{Given, is_broken, is_left, ran, with_turns};
use code_forms::Instruction;
use code_forms::Instruction::{Add, JumpBack, JumpIf, Lit, LoadG, Return, StoreG, Str};
use frame_machine::RunFault;
use held_trees::LetGo;
use machine_ready::Machine;
use machine_rules::End;
use std::alloc::Global;
use std::process::Abort;
use std::test::Fail;

/// WriteString["text"]; WriteString[""]; WriteDecimal[-1]; WriteChar['a].
const WRITES: [Instruction; 9] = [
    Str { literal: 1 },
    PUT_TEXT,
    Str { literal: 2 },
    PUT_TEXT,
    Lit { word: 65535 },
    PUT_NUMBER,
    Lit { word: 97 },
    PUT,
    Return,
];

/// UNTIL EndOfInput[] DO n ← n + 1; WriteChar[ReadChar[]] ENDLOOP; WriteDecimal[n].
const ECHOES: [Instruction; 12] = [
    AT_END,
    JumpIf { target: 9 },
    LoadG { slot: 0, words: 1 },
    Lit { word: 1 },
    Add,
    StoreG { slot: 0, words: 1 },
    GET,
    PUT,
    JumpBack { target: 0 },
    LoadG { slot: 0, words: 1 },
    PUT_NUMBER,
    Return,
];

/// What a run is given, and what it prints before it breaks off.
#[derive(Clone, Copy)]
struct Broken<'a> {
    reads: &'a [u32],
    writes: &'a [u32],
    room: usize,
    fault: RunFault,
    out: &'a str,
}

// The run breaks off. Then the machine runs from the beginning, as if nothing had been, with its globals at 0.
fn broken_then_right(
    rt: &impl Abort,
    alloc: Global,
    machine: &mut Machine,
    row: &Broken<'_>,
    whole: (&str, u64),
) -> Result<(), Fail> {
    let (out, turns) = whole;
    let left = ran(
        alloc,
        machine,
        &Given {
            turns,
            input: "hi",
            reads: row.reads,
            writes: row.writes,
            room: row.room,
        },
    )?;
    assert!(rt; is_broken(&left, row.fault, row.out), "{}", row.out);
    let left = ran(alloc, machine, &with_turns(turns, "hi"))?;
    assert!(rt; is_left(&left, End::Done, 0, out), "after {}", row.out);
    Ok(())
}

fn each_broken(
    rt: &impl Abort,
    alloc: Global,
    machine: &mut Machine,
    rows: &[Broken<'_>],
    whole: (&str, u64),
) -> Result<(), Fail> {
    for row in rows {
        broken_then_right(rt, alloc, machine, row, whole)?;
    }
    Ok(())
}

// A body alone, which may use a global and two strings.
fn body<'a>(procedures: &'a [Own<'a>; 1]) -> Module<'a> {
    Module {
        globals: 1,
        signals: &[],
        strings: &["text", ""],
        links: &[],
        procedures,
    }
}

// On one machine, each row with the run after it.
fn tried_on_one(
    rt: &impl Abort,
    alloc: Global,
    code: &[Instruction],
    rows: &[Broken<'_>],
    whole: (&str, u64),
) -> Result<(), Fail> {
    let procedures = [working(code)];
    let modules = [body(&procedures)];
    let mut machine = machine_of(alloc, &alone(&modules))?;
    let answer = each_broken(rt, alloc, &mut machine, rows, whole);
    machine.let_go();
    answer
}

fn failing_write<'a>(writes: &'a [u32], out: &'a str) -> Broken<'a> {
    Broken {
        reads: &[],
        writes,
        room: 4096,
        fault: RunFault::WriteFault,
        out,
    }
}

fn failing_read<'a>(reads: &'a [u32], out: &'a str) -> Broken<'a> {
    Broken {
        reads,
        writes: &[],
        room: 4096,
        fault: RunFault::ReadFault,
        out,
    }
}

/// A write that fails has written half of its piece; the empty string is no write.
#[test]
fn each_write_fails(rt: HostRuntime) -> Result<(), Fail> {
    let rows = [
        failing_write(&[0], "te"),
        failing_write(&[1], "text-"),
        failing_write(&[2], "text-1"),
        Broken {
            reads: &[],
            writes: &[],
            room: 5,
            fault: RunFault::WriteFault,
            out: "text-",
        },
    ];
    tried_on_one(&rt, rt.alloc(), &WRITES, &rows, ("text-1a", 5))
}

/// There is a read for each byte and one for the end of the input: ReadChar takes the byte that EndOfInput looked at.
#[test]
fn each_read_fails(rt: HostRuntime) -> Result<(), Fail> {
    let rows = [
        failing_read(&[0], ""),
        failing_read(&[1], "h"),
        failing_read(&[2], "hi"),
        failing_write(&[0], ""),
        failing_write(&[1], "h"),
        failing_write(&[2], "hi"),
    ];
    tried_on_one(&rt, rt.alloc(), &ECHOES, &rows, ("hi2", 11))
}
