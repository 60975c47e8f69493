//! As many activations as may stand, and one more.

use crate::building::{Catch, Module, On, Own, PUT, Program, S, doing, machine_of, signalling};
use crate::running::{Trial, ends, is_left, ran, with_turns};
use code_forms::Instruction::{
    Call, CallLink, Eq, JumpIfNot, Lit, LoadL, Raise, Resume, Return, Sub,
};
use code_forms::{CodeKind, CodeLink, Instruction, Label};
use held_trees::LetGo;
use machine_ready::Machine;
use machine_rules::End;
use object_files::Link;
use std::alloc::Global;
use std::process::Abort;
use std::test::Fail;

/// A link to a procedure that takes and gives nothing.
const PLAIN_LINK: CodeLink = CodeLink {
    kind: CodeKind::Procedure,
    args: 0,
    results: 0,
};

const FIRST_OF_SECOND: [Link; 1] = [Link::To {
    instance: 1,
    number: 1,
}];

const RETURNS: Own<'static> = Own(0, 0, &[Return], &[]);

/// P: [n] = BEGIN IF n = 0 THEN last ELSE P[n - 1] END.
fn descending(last: Instruction) -> [Instruction; 11] {
    [
        LoadL { slot: 0, words: 1 },
        Lit { word: 0 },
        Eq,
        JumpIfNot { target: 6 },
        last,
        Return,
        LoadL { slot: 0, words: 1 },
        Lit { word: 1 },
        Sub,
        Call { procedure: 1 },
        Return,
    ]
}

/// P[n ! S => RESUME]; WriteChar['.].
fn beginning(n: u16) -> [Instruction; 6] {
    [
        Lit { word: n },
        Call { procedure: 1 },
        Lit { word: 46 },
        PUT,
        Return,
        Resume { words: 0 },
    ]
}

const CATCHES: [Catch<'static>; 1] = [Catch(1, 2, &[On(&[Label::Own(S)], 0, 0, 5, 6)])];

/// What the lowest call does, the instances to start, n, the least turns, what is printed and the end. Beside the body stand n + 1
/// calls of P.
type Row = (Instruction, &'static [u32], u16, u64, &'static str, End);

/// There is room for 8,192 activations: for all of P; for the start of another instance, and then for the call that waits for it;
/// for an arm. Where there is none the turn of the call, the start or the arm is spent.
const ROWS: [Row; 10] = [
    (Return, &[0], 8190, 8193, ".", End::Done),
    (Return, &[0], 8191, 8193, "", End::FrameLimit),
    (CallLink { link: 6 }, &[0], 8189, 8194, ".", End::Done),
    (CallLink { link: 6 }, &[0], 8190, 8194, "", End::FrameLimit),
    (CallLink { link: 6 }, &[1, 0], 8189, 8194, ".", End::Done),
    (
        CallLink { link: 6 },
        &[1, 0],
        8190,
        8194,
        "",
        End::FrameLimit,
    ),
    (Raise { signal: S }, &[0], 8189, 8194, ".", End::Done),
    (Raise { signal: S }, &[0], 8190, 8194, "", End::FrameLimit),
    (Call { procedure: 2 }, &[0], 8189, 8193, ".", End::Done),
    (Call { procedure: 2 }, &[0], 8190, 8193, "", End::FrameLimit),
];

fn spent(rt: &impl Abort, alloc: Global, machine: &mut Machine, turns: u64) -> Result<(), Fail> {
    let left = ran(alloc, machine, &with_turns(turns, ""))?;
    assert!(rt; is_left(&left, End::Spent, 0, ""), "{turns} turns");
    Ok(())
}

// One turn fewer spends all. At the end that is printed a turn was spent, so nothing is printed then.
fn spent_before(rt: &impl Abort, alloc: Global, trial: &Trial<'_>) -> Result<(), Fail> {
    let mut machine = machine_of(alloc, &trial.program)?;
    let answer = spent(rt, alloc, &mut machine, trial.turns.saturating_sub(1));
    machine.let_go();
    answer
}

/// The code of the body and of P.
#[derive(Drop)]
struct Codes {
    body: [Instruction; 6],
    descent: [Instruction; 11],
}

fn calling<'a>(codes: &'a Codes) -> [Own<'a>; 3] {
    three(
        doing(&codes.body, &CATCHES),
        Own(1, 0, &codes.descent, &[]),
        RETURNS,
    )
}

fn three<'a>(first: Own<'a>, second: Own<'a>, third: Own<'a>) -> [Own<'a>; 3] {
    [first, second, third]
}

const CALLED: [Own<'static>; 2] = [RETURNS, RETURNS];

fn caller<'a>(calling: &'a [Own<'a>; 3]) -> Module<'a> {
    Module {
        links: &[PLAIN_LINK],
        ..signalling(calling)
    }
}

fn both<'a>(first: Module<'a>, second: Module<'a>) -> [Module<'a>; 2] {
    [first, second]
}

fn bound<'a>(modules: &'a [Module<'a>; 2], control: &'a [u32]) -> Program<'a> {
    Program {
        modules,
        instances: &[0, 1],
        links: &[&FIRST_OF_SECOND, &[]],
        control,
    }
}

fn tried_row(rt: &impl Abort, alloc: Global, row: Row) -> Result<(), Fail> {
    let (last, control, n, turns, out, end) = row;
    let codes = Codes {
        body: beginning(n),
        descent: descending(last),
    };
    let procedures = calling(&codes);
    let modules = both(caller(&procedures), signalling(&CALLED));
    let trial = Trial {
        program: bound(&modules, control),
        input: "",
        turns,
        out,
        end,
    };
    ends(rt, alloc, &trial)?;
    spent_before(rt, alloc, &trial)
}

#[test]
fn the_most_activations(rt: HostRuntime) -> Result<(), Fail> {
    for row in ROWS {
        tried_row(&rt, rt.alloc(), row)?;
    }
    Ok(())
}
