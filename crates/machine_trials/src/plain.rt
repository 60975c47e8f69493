//! Runs within one procedure: jumps forward and back, what is written and read, and faults of words.

use crate::building::{
    AT_END, Catch, GET, Module, On, Own, PUT, PUT_NUMBER, PUT_TEXT, alone, machine_of, working,
};
use crate::running::{Alone, ran, tried_alone, with_turns};
use code_forms::Instruction::{
    Add, DivI, Index, Jump, JumpBack, JumpIf, JumpIfNot, Leave, Lit, LoadG, LoadLX, Mul, Neg, Pop,
    Return, Roll, StoreG, StoreLX, Str, StrAt, StrLen, Sub,
};
use code_forms::{Instruction, Label};
use held_trees::LetGo;
use machine_ready::Machine;
use machine_rules::End;
use signaller::SignalId;
use std::alloc::Global;
use std::process::Abort;
use std::test::Fail;

// A body alone, which may use two globals and two strings.
fn body<'a>(procedures: &'a [Own<'a>; 1]) -> Module<'a> {
    Module {
        globals: 2,
        signals: &[],
        strings: &["text", ""],
        links: &[],
        procedures,
    }
}

/// i ← 3; WHILE i # 0 DO WriteDecimal[i]; i ← i - 1 ENDLOOP
const COUNTS: [Instruction; 12] = [
    Lit { word: 3 },
    StoreG { slot: 0, words: 1 },
    LoadG { slot: 0, words: 1 },
    JumpIfNot { target: 11 },
    LoadG { slot: 0, words: 1 },
    PUT_NUMBER,
    LoadG { slot: 0, words: 1 },
    Lit { word: 1 },
    Sub,
    StoreG { slot: 0, words: 1 },
    JumpBack { target: 2 },
    Return,
];

/// UNTIL EndOfInput[] DO WriteChar[ReadChar[]] ENDLOOP
const ECHOES: [Instruction; 6] = [
    AT_END,
    JumpIf { target: 5 },
    GET,
    PUT,
    JumpBack { target: 0 },
    Return,
];

#[test]
fn bodies(rt: HostRuntime) -> Result<(), Fail> {
    let rows: [(&[Instruction], &str, u64, &str, End); 16] = [
        (&[Return], "", 1, "", End::Done),
        (&COUNTS, "", 7, "321", End::Done),
        (&ECHOES, "hi", 10, "hi", End::Done),
        (&ECHOES, "", 2, "", End::Done),
        (&[GET, PUT, Return], "hi", 3, "h", End::Done),
        // the input is at its end: the call's turn and the raise's
        (
            &[GET, PUT, Return],
            "",
            3,
            "",
            End::Uncaught(SignalId::NoInput),
        ),
        // an IF goes one way
        (
            &[
                Lit { word: 1 },
                JumpIfNot { target: 5 },
                Lit { word: 121 },
                PUT,
                Jump { target: 7 },
                Lit { word: 110 },
                PUT,
                Return,
            ],
            "",
            2,
            "y",
            End::Done,
        ),
        // a string, an empty one, a negative number, and a character modulo 256
        (
            &[
                Str { literal: 1 },
                PUT_TEXT,
                Str { literal: 2 },
                PUT_TEXT,
                Lit { word: 65535 },
                PUT_NUMBER,
                Lit { word: 353 },
                PUT,
                Return,
            ],
            "",
            5,
            "text-1a",
            End::Done,
        ),
        // sums and products wrap
        (
            &[
                Lit { word: 32767 },
                Lit { word: 2 },
                Add,
                PUT_NUMBER,
                Lit { word: 256 },
                Lit { word: 257 },
                Mul,
                Neg,
                PUT_NUMBER,
                Return,
            ],
            "",
            3,
            "-32767-256",
            End::Done,
        ),
        // the third byte of a string, and its length
        (
            &[
                Str { literal: 1 },
                Lit { word: 2 },
                StrAt,
                PUT,
                Str { literal: 1 },
                StrLen,
                PUT_NUMBER,
                Return,
            ],
            "",
            3,
            "x4",
            End::Done,
        ),
        (
            &[Str { literal: 1 }, Lit { word: 4 }, StrAt, PUT, Return],
            "",
            2,
            "",
            End::Uncaught(SignalId::BoundsFault),
        ),
        (
            &[Lit { word: 1 }, Lit { word: 0 }, DivI, PUT_NUMBER, Return],
            "",
            2,
            "",
            End::Uncaught(SignalId::ZeroDivisor),
        ),
        (
            &[
                Lit { word: 0 },
                Lit { word: 3 },
                Index { count: 3, size: 1 },
                Pop { words: 1 },
                Return,
            ],
            "",
            2,
            "",
            End::Uncaught(SignalId::BoundsFault),
        ),
        // the second of three words of the frame, by its offset
        (
            &[
                Lit { word: 1 },
                Lit { word: 9 },
                StoreLX {
                    slot: 1,
                    extent: 3,
                    words: 1,
                },
                Lit { word: 1 },
                LoadLX {
                    slot: 1,
                    extent: 3,
                    words: 1,
                },
                PUT_NUMBER,
                Return,
            ],
            "",
            2,
            "9",
            End::Done,
        ),
        // two words past the extent
        (
            &[
                Lit { word: 2 },
                LoadLX {
                    slot: 1,
                    extent: 3,
                    words: 2,
                },
                Pop { words: 2 },
                Return,
            ],
            "",
            2,
            "",
            End::Uncaught(SignalId::BoundsFault),
        ),
        // one word under two comes to the top
        (
            &[
                Lit { word: 1 },
                Lit { word: 2 },
                Lit { word: 3 },
                Roll { words: 1, over: 2 },
                PUT_NUMBER,
                PUT_NUMBER,
                PUT_NUMBER,
                Return,
            ],
            "",
            4,
            "132",
            End::Done,
        ),
    ];
    for (code, input, turns, out, end) in rows {
        let procedures = [working(code)];
        tried_alone(
            &rt,
            rt.alloc(),
            &Alone {
                module: body(&procedures),
                input,
                turns,
                out,
                end,
            },
        )?;
    }
    Ok(())
}

/// A fault of words is caught by its label alone: BoundsFault => WriteChar['b].
fn catching(code: &[Instruction]) -> Own<'_> {
    Own(
        0,
        0,
        code,
        &[Catch(2, 3, &[On(&[Label::BoundsFault], 0, 0, 5, 8)])],
    )
}

#[test]
fn faults_in_phrases(rt: HostRuntime) -> Result<(), Fail> {
    let rows: [(Instruction, u64, &str, End); 2] = [
        (Index { count: 3, size: 1 }, 4, "b", End::Done),
        (DivI, 2, "", End::Uncaught(SignalId::ZeroDivisor)),
    ];
    for (faulting, turns, out, end) in rows {
        let code = [
            Lit { word: 7 },
            Lit {
                word: if turns == 4 { 3 } else { 0 },
            },
            faulting,
            Pop { words: 1 },
            Return,
            Lit { word: 98 },
            PUT,
            Leave { arms: 1, target: 4 },
        ];
        let procedures = [catching(&code)];
        tried_alone(
            &rt,
            rt.alloc(),
            &Alone {
                module: body(&procedures),
                input: "",
                turns,
                out,
                end,
            },
        )?;
    }
    Ok(())
}

// What is left of the input is what was not taken, or a byte fewer where the end was asked for.
fn left_of_input(
    rt: &impl Abort,
    alloc: Global,
    machine: &mut Machine,
    next: Option<u8>,
) -> Result<(), Fail> {
    let left = ran(alloc, machine, &with_turns(100, "hi"))?;
    assert!(rt; left.next == next);
    Ok(())
}

#[test]
fn inputs(rt: HostRuntime) -> Result<(), Fail> {
    let rows: [(&[Instruction], Option<u8>); 3] = [
        (&[Return], Some(104)),
        (&[GET, Pop { words: 1 }, Return], Some(105)),
        (&[AT_END, Pop { words: 1 }, Return], Some(105)),
    ];
    for (code, next) in rows {
        let procedures = [working(code)];
        let modules = [body(&procedures)];
        let mut machine = machine_of(rt.alloc(), &alone(&modules))?;
        let answer = left_of_input(&rt, rt.alloc(), &mut machine, next);
        machine.let_go();
        answer?;
    }
    Ok(())
}
