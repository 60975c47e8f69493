//! Calls, several instances, and when they are started.

use crate::building::{Catch, Module, On, Own, PUT, PUT_NUMBER, Program, Sign};
use crate::running::{Alone, Trial, tried, tried_alone};
use code_forms::Instruction::{
    Add, Call, CallLink, Eq, JumpBack, JumpIf, JumpIfNot, Leave, LessC, LessI, Lit, LoadG, LoadL,
    Mul, Raise, RaiseLink, Resume, Return, StoreG, StoreL, Sub,
};
use code_forms::{CodeKind, CodeLink, Instruction, Label};
use machine_rules::End;
use object_files::Link;
use signaller::SignalId;
use std::test::Fail;

const ERROR: Sign = Sign(CodeKind::Error, 0, 0);

/// A signal that takes a word and gives one.
const ASKING: Sign = Sign(CodeKind::Signal, 1, 1);

const ERROR_LINK: CodeLink = CodeLink {
    kind: CodeKind::Error,
    args: 0,
    results: 0,
};

const SIGNAL_LINK: CodeLink = CodeLink {
    kind: CodeKind::Signal,
    args: 1,
    results: 1,
};

/// Links to procedures that take and give nothing, give a word, take and give a word.
const PLAIN_LINK: CodeLink = CodeLink {
    kind: CodeKind::Procedure,
    args: 0,
    results: 0,
};

const GIVING_LINK: CodeLink = CodeLink {
    kind: CodeKind::Procedure,
    args: 0,
    results: 1,
};

const ASKED_LINK: CodeLink = CodeLink {
    kind: CodeKind::Procedure,
    args: 1,
    results: 1,
};

const RETURNS: Own<'static> = Own(0, 0, &[Return], &[]);

/// Fibonacci numbers by calls: IF n < 2 THEN n ELSE f[n - 1] + f[n - 2].
const FIBONACCI: [Instruction; 18] = [
    LoadL { slot: 0, words: 1 },
    Lit { word: 2 },
    LessC,
    JumpIfNot { target: 7 },
    LoadL { slot: 0, words: 1 },
    StoreL { slot: 1, words: 1 },
    Return,
    LoadL { slot: 0, words: 1 },
    Lit { word: 1 },
    Sub,
    Call { procedure: 1 },
    LoadL { slot: 0, words: 1 },
    Lit { word: 2 },
    Sub,
    Call { procedure: 1 },
    Add,
    StoreL { slot: 1, words: 1 },
    Return,
];

/// Two results: 1 and 2, given in the order 2, 1.
const SWAPS: [Instruction; 8] = [
    Lit { word: 1 },
    StoreL { slot: 0, words: 1 },
    Lit { word: 2 },
    StoreL { slot: 1, words: 1 },
    LoadL { slot: 1, words: 1 },
    LoadL { slot: 0, words: 1 },
    StoreL { slot: 0, words: 2 },
    Return,
];

const PRINTS_TWO: [Instruction; 7] = [
    Call { procedure: 1 },
    StoreG { slot: 0, words: 2 },
    LoadG { slot: 0, words: 1 },
    PUT_NUMBER,
    LoadG { slot: 1, words: 1 },
    PUT_NUMBER,
    Return,
];

const SIXTH: [Own<'static>; 2] = [
    Own(
        0,
        0,
        &[Lit { word: 6 }, Call { procedure: 1 }, PUT_NUMBER, Return],
        &[],
    ),
    Own(1, 1, &FIBONACCI, &[]),
];

const SWAPPED: [Own<'static>; 2] = [Own(0, 0, &PRINTS_TWO, &[]), Own(0, 2, &SWAPS, &[])];

fn counting<'a>(procedures: &'a [Own<'a>]) -> Module<'a> {
    Module {
        globals: 2,
        signals: &[],
        strings: &[],
        links: &[],
        procedures,
    }
}

/// f[6] is 8, by 25 calls; and a procedure with two results.
#[test]
fn calls(rt: HostRuntime) -> Result<(), Fail> {
    let rows: [(&[Own<'static>], u64, &str); 2] = [(&SIXTH, 27, "8"), (&SWAPPED, 4, "21")];
    for (procedures, turns, out) in rows {
        tried_alone(
            &rt,
            rt.alloc(),
            &Alone {
                module: counting(procedures),
                input: "",
                turns,
                out,
                end: End::Done,
            },
        )?;
    }
    Ok(())
}

/// WriteChar['s] when it is started; Ask: [x] RETURNS [SIGNAL S[x] * 10 + 9].
const SERVER: Module<'static> = Module {
    globals: 0,
    signals: &[ASKING],
    strings: &[],
    links: &[],
    procedures: &[Own(0, 0, &SERVES, &[]), Own(1, 1, &ASK, &[])],
};

const SERVES: [Instruction; 3] = [Lit { word: 115 }, PUT, Return];

const ASK: [Instruction; 12] = [
    Lit { word: 9 },
    StoreL { slot: 2, words: 1 },
    LoadL { slot: 0, words: 1 },
    Raise { signal: 0 },
    StoreL { slot: 3, words: 1 },
    LoadL { slot: 3, words: 1 },
    Lit { word: 10 },
    Mul,
    LoadL { slot: 2, words: 1 },
    Add,
    StoreL { slot: 1, words: 1 },
    Return,
];

/// WriteDecimal[Ask[4 ! S => RESUME[x + 1]]].
const CALLING: [Instruction; 8] = [
    Lit { word: 4 },
    CallLink { link: 6 },
    PUT_NUMBER,
    Return,
    LoadL { slot: 0, words: 1 },
    Lit { word: 1 },
    Add,
    Resume { words: 1 },
];

/// The same with a raise of S itself in the place of the call.
const RAISING: [Instruction; 8] = [
    Lit { word: 4 },
    RaiseLink { link: 7 },
    PUT_NUMBER,
    Return,
    LoadL { slot: 0, words: 1 },
    Lit { word: 1 },
    Add,
    Resume { words: 1 },
];

const ANSWERS: [Catch<'static>; 1] = [Catch(1, 2, &[On(&[Label::Link(7)], 0, 1, 4, 8)])];

/// The procedure 1 and the signal 0 of instance 0.
const BOUND: [Link; 2] = [
    Link::To {
        instance: 0,
        number: 1,
    },
    Link::To {
        instance: 0,
        number: 0,
    },
];

const CALLS_SERVER: [Module<'static>; 2] = [
    SERVER,
    Module {
        globals: 0,
        signals: &[],
        strings: &[],
        links: &[ASKED_LINK, SIGNAL_LINK],
        procedures: &[Own(0, 0, &CALLING, &ANSWERS)],
    },
];

const RAISES_OF_SERVER: [Module<'static>; 2] = [
    SERVER,
    Module {
        globals: 0,
        signals: &[],
        strings: &[],
        links: &[ASKED_LINK, SIGNAL_LINK],
        procedures: &[Own(0, 0, &RAISING, &ANSWERS)],
    },
];

/// The call starts the server while its argument waits; a raise of its signal starts nothing; CONTROL starts each once.
#[test]
fn started_at_a_first_call(rt: HostRuntime) -> Result<(), Fail> {
    let rows: [(&[Module<'static>], &[u32], u64, &str); 5] = [
        (&CALLS_SERVER, &[1], 7, "s59"),
        (&CALLS_SERVER, &[1, 0], 7, "s59"),
        (&CALLS_SERVER, &[0, 1, 0], 7, "s59"),
        (&RAISES_OF_SERVER, &[1], 4, "5"),
        (&RAISES_OF_SERVER, &[1, 0, 1], 6, "5s"),
    ];
    for (modules, control, turns, out) in rows {
        tried(
            &rt,
            rt.alloc(),
            &Trial {
                program: Program {
                    modules,
                    instances: &[0, 1],
                    links: &[&[], &BOUND],
                    control,
                },
                input: "",
                turns,
                out,
                end: End::Done,
            },
        )?;
    }
    Ok(())
}

/// n ← n + 1; IF n > 2 THEN ERROR Full; RETURN[n].
const NEXT: [Instruction; 12] = [
    LoadG { slot: 0, words: 1 },
    Lit { word: 1 },
    Add,
    StoreG { slot: 0, words: 1 },
    Lit { word: 2 },
    LoadG { slot: 0, words: 1 },
    LessI,
    JumpIfNot { target: 9 },
    Raise { signal: 0 },
    LoadG { slot: 0, words: 1 },
    StoreL { slot: 0, words: 1 },
    Return,
];

/// THROUGH [1..3] DO WriteDecimal[Next[]] ENDLOOP.
const GO: [Instruction; 14] = [
    Lit { word: 3 },
    StoreL { slot: 0, words: 1 },
    LoadL { slot: 0, words: 1 },
    Lit { word: 0 },
    Eq,
    JumpIf { target: 13 },
    CallLink { link: 6 },
    PUT_NUMBER,
    LoadL { slot: 0, words: 1 },
    Lit { word: 1 },
    Sub,
    StoreL { slot: 0, words: 1 },
    JumpBack { target: 2 },
    Return,
];

/// WriteDecimal[Next[]]; Go[! Full => BEGIN WriteChar['x]; CONTINUE END].
const MAIN: [Instruction; 7] = [
    CallLink { link: 6 },
    PUT_NUMBER,
    CallLink { link: 8 },
    Return,
    Lit { word: 120 },
    PUT,
    Leave { arms: 1, target: 3 },
];

const COUNTS_BY: [Link; 1] = [Link::To {
    instance: 0,
    number: 1,
}];

const CATCHES_FULL: [Catch<'static>; 1] = [Catch(2, 3, &[On(&[Label::Link(7)], 0, 0, 4, 7)])];

const COUNTERS: [Module<'static>; 3] = [
    Module {
        globals: 1,
        signals: &[ERROR],
        strings: &[],
        links: &[],
        procedures: &[RETURNS, Own(0, 1, &NEXT, &[])],
    },
    Module {
        globals: 0,
        signals: &[],
        strings: &[],
        links: &[GIVING_LINK],
        procedures: &[RETURNS, Own(0, 0, &GO, &[])],
    },
    Module {
        globals: 0,
        signals: &[],
        strings: &[],
        links: &[GIVING_LINK, ERROR_LINK, PLAIN_LINK],
        procedures: &[Own(0, 0, &MAIN, &CATCHES_FULL)],
    },
];

/// Main counts by the second counter, and calls Go; it catches Full of the first, or of the second.
const CATCHES_OF_FIRST: [Link; 3] = [
    Link::To {
        instance: 1,
        number: 1,
    },
    Link::To {
        instance: 0,
        number: 0,
    },
    Link::To {
        instance: 2,
        number: 1,
    },
];

const CATCHES_OF_SECOND: [Link; 3] = [
    Link::To {
        instance: 1,
        number: 1,
    },
    Link::To {
        instance: 1,
        number: 0,
    },
    Link::To {
        instance: 2,
        number: 1,
    },
];

/// Two instances of one module have their own variables and their own signals: Go counts by the first, Main by the second.
#[test]
fn two_instances_of_a_module(rt: HostRuntime) -> Result<(), Fail> {
    let rows: [(&[&[Link]], u64, &str, End); 2] = [
        (
            &[&[], &[], &COUNTS_BY, &CATCHES_OF_SECOND],
            15,
            "112",
            End::Uncaught(SignalId::Own(0, 0)),
        ),
        (
            &[&[], &[], &COUNTS_BY, &CATCHES_OF_FIRST],
            17,
            "112x",
            End::Done,
        ),
    ];
    for (links, turns, out, end) in rows {
        tried(
            &rt,
            rt.alloc(),
            &Trial {
                program: Program {
                    modules: &COUNTERS,
                    instances: &[0, 0, 1, 2],
                    links,
                    control: &[3],
                },
                input: "",
                turns,
                out,
                end,
            },
        )?;
    }
    Ok(())
}

const CALLS_TWICE: [Instruction; 8] = [
    CallLink { link: 6 },
    Lit { word: 110 },
    PUT,
    CallLink { link: 6 },
    Return,
    Lit { word: 99 },
    PUT,
    Leave { arms: 1, target: 1 },
];

const CATCHES_START: [Catch<'static>; 1] = [Catch(0, 1, &[On(&[Label::Link(7)], 0, 0, 5, 8)])];

const FAILS_TO_START: [Module<'static>; 2] = [
    Module {
        globals: 0,
        signals: &[ERROR],
        strings: &[],
        links: &[],
        procedures: &[
            Own(0, 0, &[Raise { signal: 0 }], &[]),
            Own(0, 0, &[Lit { word: 112 }, PUT, Return], &[]),
        ],
    },
    Module {
        globals: 0,
        signals: &[],
        strings: &[],
        links: &[PLAIN_LINK, ERROR_LINK],
        procedures: &[Own(0, 0, &CALLS_TWICE, &CATCHES_START)],
    },
];

/// The start that a call brings about is left by an arm of the caller: the instance counts as started, and the next call
/// of it is done at once. P[! E => BEGIN WriteChar['c]; CONTINUE END]; WriteChar['n]; P[]; its body: ERROR E.
#[test]
fn a_start_that_is_left(rt: HostRuntime) -> Result<(), Fail> {
    tried(
        &rt,
        rt.alloc(),
        &Trial {
            program: Program {
                modules: &FAILS_TO_START,
                instances: &[0, 1],
                links: &[&[], &BOUND],
                control: &[1],
            },
            input: "",
            turns: 9,
            out: "cnp",
            end: End::Done,
        },
    )
}
