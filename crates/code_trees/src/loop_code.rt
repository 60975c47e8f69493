//! The instructions that count the rounds of a loop.
ghost use Rattle.std.specs.Prelude.{◌≡◌, ◌+◌, ◌≤◌, [], ◌∷◌, ◌++◌, IfOk, OnOk};
ghost use Rattle.mesa_types.specs.Plain.{interval};
ghost use Rattle.code_rules.specs.Loops as loops;
ghost use Rattle.code_blocks.specs.Translation as spec;
ghost use Rattle.code_trees.specs.Excess.{excess, excess_in};
ghost use Rattle.code_trees.specs.Forms.{counter_of};
ghost use Rattle.code_trees.specs.Plain.{plain};
ghost use Rattle.code_trees.specs.Routines.{coded};

use crate::block::{Code, Leap};
use crate::check_code::{less, put_check};
use crate::counter::Counter;
use crate::making::{does, out, pair};
use crate::part::Part;
use crate::routine::Routine;
use crate::slot_code::store;
use code_forms::Instruction;
use mesa_base::{List, OutOfMemory};
use mesa_types::{Base, Given, Interval};
use std::alloc::Global;

/// Whether an interval takes a number, by its bounds in a slot and the next.
fn put_some(
    code: &mut Code,
    slot: u16,
    base: Base,
    first_is_open: bool,
    last_is_open: bool,
) -> Result<(), OutOfMemory>
    requires { slot + 1 ≤ 65535 }
    ensures { OnOk result (code.new ≡ code.old ++ loops.some_code slot base first_is_open last_is_open) }
{
    let first = Instruction::LoadL { slot, words: 1 };
    let last = Instruction::LoadL {
        slot: slot + 1,
        words: 1,
    };
    let bounds = Instruction::LoadL { slot, words: 2 };
    match (first_is_open, last_is_open) {
        (false, false) => { code.extend_from_slice(&[last, first, less(base), Instruction::Not])? }
        (false, true) | (true, false) => code.extend_from_slice(&[bounds, less(base)])?,
        (true, true) => code.extend_from_slice(&[
            bounds,
            less(base),
            last,
            first,
            Instruction::Sub,
            Instruction::Lit { word: 1 },
            Instruction::Eq,
            Instruction::Not,
            Instruction::Mul,
        ])?,
    }
    Ok(())
}

/// The word in a slot becomes the next one.
fn put_up(code: &mut Code, slot: u16) -> Result<(), OutOfMemory>
    ensures { OnOk result (code.new ≡ code.old ++ loops.up_code slot) }
{
    code.extend_from_slice(&[
        Instruction::LoadL { slot, words: 1 },
        Instruction::Lit { word: 1 },
        Instruction::Add,
        Instruction::StoreL { slot, words: 1 },
    ])?;
    Ok(())
}

/// The word in a slot becomes the one before.
fn put_down(code: &mut Code, slot: u16) -> Result<(), OutOfMemory>
    ensures { OnOk result (code.new ≡ code.old ++ loops.down_code slot) }
{
    code.extend_from_slice(&[
        Instruction::LoadL { slot, words: 1 },
        Instruction::Lit { word: 1 },
        Instruction::Sub,
        Instruction::StoreL { slot, words: 1 },
    ])?;
    Ok(())
}

/// An open bound is not taken.
fn put_open(
    code: &mut Code,
    slot: u16,
    first_is_open: bool,
    last_is_open: bool,
) -> Result<(), OutOfMemory>
    requires { slot + 1 ≤ 65535 }
    ensures { OnOk result (code.new ≡ code.old ++ (loops.when first_is_open (loops.up_code slot) ++ loops.when last_is_open (loops.down_code (slot + 1)))) }
{
    if first_is_open {
        put_up(code, slot)?;
    }
    if last_is_open {
        put_down(code, slot + 1)?;
    }
    Ok(())
}

/// Before the first round: the bounds are on the operand stack.
#[tactic(auto, using(crate::proofs::IntervalLaws::start_of_is))]
pub fn start(alloc: Global, slot: u16, base: Base, range: &Interval) -> Result<Code, OutOfMemory>
    requires { slot + 2 ≤ 65535 }
    ensures { IfOk result (λ code. code ≡ spec.start_of slot base (interval range.now)) }
{
    let mut code = List::of(alloc, Instruction::StoreL { slot, words: 2 })?;
    put_some(
        &mut code,
        slot,
        base,
        range.first_is_open,
        range.last_is_open,
    )?;
    code.push(Instruction::StoreL {
        slot: slot + 2,
        words: 1,
    })?;
    put_open(&mut code, slot, range.first_is_open, range.last_is_open)?;
    Ok(code)
}

/// The number in a slot is checked and given to the variable.
#[tactic(auto, unfolding(crate::specs::Excess::excess_in, crate::specs::Excess::excess_of), using(crate::proofs::OwnCode::excess_both))]
fn put_given(code: &mut Code, routine: &Routine, given: Given, slot: u16) -> Result<(), OutOfMemory>
    requires { excess_in (loops.give_code (coded routine.now) given slot) ≡ 0 }
    ensures { OnOk result (code.new ≡ code.old ++ loops.give_code (coded routine.now) given slot) }
{
    match given {
        Given::NoVariable => Ok(()),
        Given::GivenTo(home, range) => {
            code.push(Instruction::LoadL { slot, words: 1 })?;
            put_check(code, range)?;
            code.push(store(routine, home, 0, 1))?;
            Ok(())
        }
    }
}

/// At the end of a round: one is left unless this was the last number's.
#[tactic(auto, unfolding(crate::specs::Excess::excess_in, crate::specs::Excess::excess_of))]
fn put_step(code: &mut Code, counter: Counter) -> Result<(), OutOfMemory>
    requires { excess_in (loops.step_code (counter_of counter)) ≡ 0 }
    ensures { OnOk result (code.new ≡ code.old ++ loops.step_code (counter_of counter)) }
{
    match counter {
        Counter::Uncounted => Ok(()),
        Counter::CountedIn(slot, _, down) => {
            code.extend_from_slice(&[
                Instruction::LoadL { slot, words: 2 },
                Instruction::Eq,
                Instruction::Not,
                Instruction::StoreL {
                    slot: slot + 2,
                    words: 1,
                },
            ])?;
            if down {
                put_down(code, slot + 1)
            } else {
                put_up(code, slot)
            }
        }
    }
}

pub fn step(alloc: Global, counter: Counter) -> Result<Code, OutOfMemory>
    requires { excess_in (loops.step_code (counter_of counter)) ≡ 0 }
    ensures { IfOk result (λ code. code ≡ loops.step_code (counter_of counter)) }
{
    let mut code = List::new(alloc);
    put_step(&mut code, counter)?;
    Ok(code)
}

/// At the head of a round: out to the end of part 0 where none is left.
#[tactic(auto, unfolding(crate::specs::Excess::excess, crate::specs::Excess::excess_in, crate::specs::Excess::excess_of))]
pub fn head(alloc: Global, counter: Counter) -> Result<Part, OutOfMemory>
    requires { excess (spec.head_code (counter_of counter)) ≡ 0 }
    ensures { IfOk result (λ made. plain made.block ≡ spec.head_code (counter_of counter)) }
{
    match counter {
        Counter::Uncounted => Ok(does(List::new(alloc))),
        Counter::CountedIn(slot, _, _) => {
            let code = List::of(
                alloc,
                Instruction::LoadL {
                    slot: slot + 2,
                    words: 1,
                },
            )?;
            pair(alloc, does(code), out(Leap::Where(false), 0))
        }
    }
}

/// The slot of the number of the next round.
fn next_slot(slot: u16, down: bool) -> u16
    requires { slot + 1 ≤ 65535 }
    ensures { result ≡ loops.next_slot slot down }
{
    if down { slot + 1 } else { slot }
}

/// The next number is given to the variable.
#[tactic(auto, unfolding(crate::specs::Excess::excess, crate::specs::Excess::excess_in, crate::specs::Excess::excess_of))]
pub fn given_next(alloc: Global, routine: &Routine, counter: Counter) -> Result<Part, OutOfMemory>
    requires room { excess (spec.head_code (counter_of counter)) ≡ 0 }
    requires fits { excess (spec.gives_next (coded routine.now) (counter_of counter)) ≡ 0 }
    ensures { IfOk result (λ made. plain made.block ≡ spec.gives_next (coded routine.now) (counter_of counter)) }
{
    match counter {
        Counter::Uncounted => Ok(does(List::new(alloc))),
        Counter::CountedIn(slot, given, down) => {
            let mut code = List::new(alloc);
            put_given(&mut code, routine, given, next_slot(slot, down))?;
            Ok(does(code))
        }
    }
}
