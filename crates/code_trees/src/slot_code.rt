//! Instructions that read and write variables.
ghost use Rattle.std.specs.Prelude.{◌≡◌, ◌++◌, OnOk};
ghost use Rattle.code_rules.specs.Slots as slots;
ghost use Rattle.code_trees.specs.Excess.{excess_in, excess_of};
ghost use Rattle.code_trees.specs.Routines.{coded};

use crate::block::Code;
use crate::routine::Routine;
use crate::stack_code::put_pop;
use code_forms::Instruction;
use mesa_base::OutOfMemory;
use mesa_types::Home;

/// So many words of a variable, from some offset in it on.
#[tactic(auto, unfolding(crate::specs::Excess::excess_of))]
pub fn load(routine: &Routine, home: Home, offset: u64, words: u64) -> Instruction
    requires { excess_of (slots.load (coded routine.now) home offset words) ≡ 0 }
    ensures { result ≡ slots.load (coded routine.now) home offset words }
{
    let words = words as u16;
    match home {
        Home::Local(n) => Instruction::LoadL {
            slot: (u64::from(routine.locals.start(n as usize)) + offset) as u16,
            words,
        },
        Home::Global(n) => Instruction::LoadG {
            slot: (u64::from(routine.globals.start(n as usize)) + offset) as u16,
            words,
        },
    }
}

#[tactic(auto, unfolding(crate::specs::Excess::excess_of))]
pub fn store(routine: &Routine, home: Home, offset: u64, words: u64) -> Instruction
    requires { excess_of (slots.store (coded routine.now) home offset words) ≡ 0 }
    ensures { result ≡ slots.store (coded routine.now) home offset words }
{
    let words = words as u16;
    match home {
        Home::Local(n) => Instruction::StoreL {
            slot: (u64::from(routine.locals.start(n as usize)) + offset) as u16,
            words,
        },
        Home::Global(n) => Instruction::StoreG {
            slot: (u64::from(routine.globals.start(n as usize)) + offset) as u16,
            words,
        },
    }
}

/// From the offset on the operand stack on, within the variable.
#[tactic(auto, unfolding(crate::specs::Excess::excess_of))]
pub fn load_within(routine: &Routine, home: Home, words: u64) -> Instruction
    requires { excess_of (slots.load_within (coded routine.now) home words) ≡ 0 }
    ensures { result ≡ slots.load_within (coded routine.now) home words }
{
    let words = words as u16;
    match home {
        Home::Local(n) => Instruction::LoadLX {
            slot: routine.locals.start(n as usize) as u16,
            extent: routine.locals.words_of(n) as u16,
            words,
        },
        Home::Global(n) => Instruction::LoadGX {
            slot: routine.globals.start(n as usize) as u16,
            extent: routine.globals.words_of(n) as u16,
            words,
        },
    }
}

#[tactic(auto, unfolding(crate::specs::Excess::excess_of))]
pub fn store_within(routine: &Routine, home: Home, words: u64) -> Instruction
    requires { excess_of (slots.store_within (coded routine.now) home words) ≡ 0 }
    ensures { result ≡ slots.store_within (coded routine.now) home words }
{
    let words = words as u16;
    match home {
        Home::Local(n) => Instruction::StoreLX {
            slot: routine.locals.start(n as usize) as u16,
            extent: routine.locals.words_of(n) as u16,
            words,
        },
        Home::Global(n) => Instruction::StoreGX {
            slot: routine.globals.start(n as usize) as u16,
            extent: routine.globals.words_of(n) as u16,
            words,
        },
    }
}

#[tactic(auto, unfolding(crate::specs::Excess::excess_of))]
fn clear(routine: &Routine, home: Home, words: u64) -> Instruction
    requires { excess_of (slots.clear (coded routine.now) home words) ≡ 0 }
    ensures { result ≡ slots.clear (coded routine.now) home words }
{
    let words = words as u16;
    match home {
        Home::Local(n) => Instruction::ZeroL {
            slot: routine.locals.start(n as usize) as u16,
            words,
        },
        Home::Global(n) => Instruction::ZeroG {
            slot: routine.globals.start(n as usize) as u16,
            words,
        },
    }
}

/// Each variable is set to zero.
#[tactic(auto, unfolding(crate::specs::Excess::excess_in))]
pub fn put_zeros(
    code: &mut Code,
    routine: &Routine,
    homes: &[Home],
    words: u64,
) -> Result<(), OutOfMemory>
    requires { excess_in (slots.zero_code (coded routine.now) homes.now words) ≡ 0 }
    ensures { OnOk result (code.new ≡ code.old ++ slots.zero_code (coded routine.now) homes.now words) }
{
    for home in homes {
        code.push(clear(routine, *home, words))?;
    }
    Ok(())
}

/// Each variable is set to the first one's value.
#[tactic(auto, unfolding(crate::specs::Excess::excess_in))]
fn put_copies(
    code: &mut Code,
    routine: &Routine,
    first: Home,
    homes: &[Home],
    words: u64,
) -> Result<(), OutOfMemory>
    requires { excess_in (slots.copy_code (coded routine.now) first homes.now words) ≡ 0 }
    ensures { OnOk result (code.new ≡ code.old ++ slots.copy_code (coded routine.now) first homes.now words) }
{
    for home in homes {
        let set = store(routine, *home, 0, words);
        code.extend_from_slice(&[load(routine, first, 0, words), set])?;
    }
    Ok(())
}

/// Each variable is set to the value on the operand stack.
#[tactic(auto, unfolding(crate::specs::Excess::excess_in))]
pub fn put_spread(
    code: &mut Code,
    routine: &Routine,
    homes: &[Home],
    words: u64,
) -> Result<(), OutOfMemory>
    requires { excess_in (slots.spread_code (coded routine.now) homes.now words) ≡ 0 }
    ensures { OnOk result (code.new ≡ code.old ++ slots.spread_code (coded routine.now) homes.now words) }
{
    match homes {
        [] => put_pop(code, words),
        [first, rest @ ..] => {
            code.push(store(routine, *first, 0, words))?;
            put_copies(code, routine, *first, rest, words)
        }
    }
}
