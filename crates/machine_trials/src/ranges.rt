//! A hundred ranges in one procedure, none in another.

use crate::arms::RAISES_E;
use crate::building::{Catch, E, On, Own, PUT, doing, pair, signalling};
use crate::running::{Alone, tried_alone};
use code_forms::Instruction::{Call, Leave, Lit, Return, ZeroL};
use code_forms::{Instruction, Label};
use machine_rules::End;
use mesa_base::OutOfMemory;
use std::alloc::Global;
use std::process::Abort;
use std::test::Fail;

const RANGES: u32 = 100;

/// A hundred times: an instruction that does nothing, and a call in a phrase of its own.
fn bodies(alloc: Global) -> Result<Vec<Instruction>, OutOfMemory> {
    let mut code = Vec::new(alloc);
    for _ in 0..RANGES {
        code.push(ZeroL { slot: 0, words: 0 })?;
        code.push(Call { procedure: 1 })?;
    }
    code.push(Return)?;
    Ok(code)
}

// Behind them the arms: each writes a letter of its own, and goes on behind its call.
fn put_arms(code: &mut Vec<Instruction>) -> Result<(), OutOfMemory> {
    for number in 0..RANGES {
        let letter = 97 + number % 26;
        code.push(Lit {
            word: letter as u16,
        })?;
        code.push(PUT)?;
        code.push(Leave {
            arms: 1,
            target: 2 * number + 2,
        })?;
    }
    Ok(())
}

const LABELS: [Label; 1] = [Label::Own(E)];

fn arms(alloc: Global) -> Result<Vec<[On<'static>; 1]>, OutOfMemory> {
    let mut all = Vec::new(alloc);
    for number in 0..RANGES {
        let start = 2 * RANGES + 1 + 3 * number;
        all.push([On(&LABELS, 0, 0, start, start + 3)])?;
    }
    Ok(all)
}

fn catches<'a>(alloc: Global, arms: &'a [[On<'static>; 1]]) -> Result<Vec<Catch<'a>>, OutOfMemory> {
    let mut all = Vec::new(alloc);
    let mut from: u32 = 1;
    for own in arms {
        all.push(Catch(from, from.saturating_add(1), own))?;
        from = from.saturating_add(2);
    }
    Ok(all)
}

/// The code with its phrases.
#[derive(Drop)]
struct Ranged<'a> {
    code: Vec<Instruction>,
    catches: Vec<Catch<'a>>,
}

fn procedures_of<'a>(ranged: &'a Ranged<'a>) -> [Own<'a>; 2] {
    pair(
        doing(ranged.code.as_slice(), ranged.catches.as_slice()),
        RAISES_E,
    )
}

const LETTERS: &str = "abcdefghijklmnopqrstuvwxyzabcdefghijklmnopqrstuvwxyz\
    abcdefghijklmnopqrstuvwxyzabcdefghijklmnopqrstuv";

fn tried_ranged(rt: &impl Abort, alloc: Global, ranged: &Ranged<'_>) -> Result<(), Fail> {
    let procedures = procedures_of(ranged);
    tried_alone(
        rt,
        alloc,
        &Alone {
            module: signalling(&procedures),
            input: "",
            turns: 401,
            out: LETTERS,
            end: End::Done,
        },
    )
}

fn tried_with(
    rt: &impl Abort,
    alloc: Global,
    code: Vec<Instruction>,
    arms: &[[On<'static>; 1]],
) -> Result<(), Fail> {
    let catches = catches(alloc, arms)?;
    let ranged = Ranged { code, catches };
    tried_ranged(rt, alloc, &ranged)
}

/// Each call raises E, which the phrase round it alone catches: the start, and for each range the call, the raise, the arm and
/// what is written.
#[test]
fn a_hundred_ranges(rt: HostRuntime) -> Result<(), Fail> {
    let mut code = bodies(rt.alloc())?;
    put_arms(&mut code)?;
    let arms = arms(rt.alloc())?;
    tried_with(&rt, rt.alloc(), code, arms.as_slice())
}
