//! Own code by itself.
ghost use Rattle.std.specs.Prelude.{◌≡◌, ◌+◌, ◌-◌, [], ◌++◌, IfOk};
ghost use Rattle.code_rules.specs.CodeFor.{words_before_last};
ghost use Rattle.code_rules.specs.OwnCode as own;
ghost use Rattle.code_rules.specs.Reading.{scratch};
ghost use Rattle.code_trees.specs.Excess.{excess_in};
ghost use Rattle.code_trees.specs.Routines.{coded};

use crate::block::Code;
use crate::check_code::{put_check, put_index, put_relation};
use crate::long_code::{
    put_conversion, put_long, put_long_operator, put_long_relation, put_long_within,
};
use crate::operator_code::{put_operator, put_within};
use crate::routine::Routine;
use crate::stack_code::put_field;
use crate::sums::{together, words_before};
use mesa_base::{List, OutOfMemory, Relation};
use mesa_types::{Base, Bases, Conversion, Extent, Operator, Part, Range};
use std::alloc::Global;

pub fn check(alloc: Global, range: Range) -> Result<Code, OutOfMemory>
    ensures { IfOk result (λ code. code ≡ own.check_code range) }
{
    let mut code = List::new(alloc);
    put_check(&mut code, range)?;
    Ok(code)
}

pub fn conversion(alloc: Global, how: Conversion) -> Result<Code, OutOfMemory>
    ensures { IfOk result (λ code. code ≡ own.conversion_code how) }
{
    let mut code = List::new(alloc);
    put_conversion(&mut code, how)?;
    Ok(code)
}

/// The two words of a LONG number.
pub fn long(alloc: Global, number: u32) -> Result<Code, OutOfMemory>
    ensures { IfOk result (λ code. code ≡ own.long_code number) }
{
    let mut code = List::new(alloc);
    put_long(&mut code, number)?;
    Ok(code)
}

pub fn index(alloc: Global, extent: Extent) -> Result<Code, OutOfMemory>
    requires { excess_in (own.index_code extent.check extent.first extent.elements extent.words) ≡ 0 }
    ensures { IfOk result (λ code. code ≡ own.index_code extent.check extent.first extent.elements extent.words) }
{
    let mut code = List::new(alloc);
    put_index(&mut code, extent)?;
    Ok(code)
}

pub fn relation(alloc: Global, base: Base, how: Relation) -> Result<Code, OutOfMemory>
    ensures { IfOk result (λ code. code ≡ own.relation_code base how) }
{
    let mut code = List::new(alloc);
    put_relation(&mut code, base, how)?;
    Ok(code)
}

pub fn long_relation(alloc: Global, base: Base, how: Relation) -> Result<Code, OutOfMemory>
    ensures { IfOk result (λ code. code ≡ own.long_relation_code base how) }
{
    let mut code = List::new(alloc);
    put_long_relation(&mut code, base, how)?;
    Ok(code)
}

/// Of a value of so many words the last of some fields, which has so many.
pub fn last_field(alloc: Global, words: u64, parts: &[Part], last: u64) -> Result<Code, OutOfMemory>
    requires { excess_in (own.field_code (words_before_last parts.now) last (words - (words_before_last parts.now + last))) ≡ 0 }
    ensures { IfOk result (λ code. code ≡ own.field_code (words_before_last parts.now) last (words - (words_before_last parts.now + last))) }
{
    let before = words_before(parts)?;
    let named = together(before, last)?;
    let mut code = List::new(alloc);
    put_field(&mut code, before, last, words.saturating_sub(named))?;
    Ok(code)
}

pub fn operator(alloc: Global, routine: &Routine, how: Operator) -> Result<Code, OutOfMemory>
    ensures { IfOk result (λ code. code ≡ own.operator_code (scratch (coded routine.now)) how) }
{
    let mut code = List::new(alloc);
    put_operator(&mut code, routine.locals.words as u16, how)?;
    Ok(code)
}

pub fn long_operator(alloc: Global, how: Operator) -> Result<Code, OutOfMemory>
    ensures { IfOk result (λ code. code ≡ own.long_operator_code how) }
{
    let mut code = List::new(alloc);
    put_long_operator(&mut code, how)?;
    Ok(code)
}

/// The number and the bounds are on the operand stack.
#[tactic(auto, using(crate::proofs::WithinRoom::within_room))]
pub fn within(
    alloc: Global,
    routine: &Routine,
    bases: Bases,
    first_is_open: bool,
    last_is_open: bool,
) -> Result<Code, OutOfMemory>
    requires { excess_in (own.within_code (scratch (coded routine.now)) bases first_is_open last_is_open) ≡ 0 }
    ensures { IfOk result (λ code. code ≡ own.within_code (scratch (coded routine.now)) bases first_is_open last_is_open) }
{
    let mut code = List::new(alloc);
    put_within(
        &mut code,
        routine.locals.words as u16,
        bases,
        first_is_open,
        last_is_open,
    )?;
    Ok(code)
}

/// The LONG number and the bounds are on the operand stack.
#[tactic(auto, using(crate::proofs::WithinRoom::long_within_room))]
pub fn long_within(
    alloc: Global,
    routine: &Routine,
    bases: Bases,
    first_is_open: bool,
    last_is_open: bool,
) -> Result<Code, OutOfMemory>
    requires { excess_in (own.long_within_code (scratch (coded routine.now)) bases first_is_open last_is_open) ≡ 0 }
    ensures { IfOk result (λ code. code ≡ own.long_within_code (scratch (coded routine.now)) bases first_is_open last_is_open) }
{
    let mut code = List::new(alloc);
    put_long_within(
        &mut code,
        routine.locals.words as u16,
        bases,
        first_is_open,
        last_is_open,
    )?;
    Ok(code)
}
