//! Blocks of expressions, made of those of their operands.
ghost use Rattle.std.specs.Prelude.{◌≡◌, ◌+◌, ◌-◌, [], ◌∷◌, IfOk};
ghost use Rattle.mesa_types.specs.Counts.{last_words};
ghost use Rattle.code_rules.specs.CodeFor.{words_before_last};
ghost use Rattle.code_rules.specs.OwnCode as own;
ghost use Rattle.code_rules.specs.Reading.{scratch};
ghost use Rattle.code_blocks.specs.Blocks as tree;
ghost use Rattle.code_blocks.specs.Translation as spec;
ghost use Rattle.code_trees.specs.Excess.{excess};
ghost use Rattle.code_trees.specs.Plain.{plain};
ghost use Rattle.code_trees.specs.Routines.{coded};

use crate::block::Leap;
use crate::conditions::{where_long_related, where_related};
use crate::making::{does, out, pair, then};
use crate::own_code::{
    check, conversion, last_field, long, long_relation, long_within, relation, within,
};
use crate::part::Part;
use crate::routine::Routine;
use crate::sums::words_of_last;
use code_forms::Instruction;
use held_trees::both;
use mesa_base::{List, OutOfMemory, Relation};
use mesa_types::{Base, Bases, Conversion, Range};
use std::alloc::Global;

/// One instruction.
#[tactic(auto, using(crate::proofs::SizeFits::instruction_bytes))]
pub fn single(alloc: Global, instruction: Instruction) -> Result<Part, OutOfMemory>
    ensures { IfOk result (λ made. plain made.block ≡ tree.Does (instruction ∷ [])) }
{
    let code = List::of(alloc, instruction)?;
    Ok(does(code))
}

/// A LONG number.
#[tactic(auto, unfolding(crate::specs::Excess::excess))]
pub fn long_number(alloc: Global, number: u32) -> Result<Part, OutOfMemory>
    ensures { IfOk result (λ made. plain made.block ≡ tree.Does (own.long_code number)) }
{
    let code = long(alloc, number)?;
    Ok(does(code))
}

/// One behind the other.
#[tactic(auto, unfolding(crate::specs::Excess::excess))]
pub fn followed(alloc: Global, first: Part, second: Part) -> Result<Part, OutOfMemory>
    requires { excess (tree.Both (plain first.block) (plain second.block)) ≡ 0 }
    ensures { IfOk result (λ made. plain made.block ≡ tree.Both (plain first.block) (plain second.block)) }
{
    pair(alloc, first, second)
}

/// An instruction behind a value.
#[tactic(auto, unfolding(crate::specs::Excess::excess))]
pub fn instructed(alloc: Global, value: Part, instruction: Instruction) -> Result<Part, OutOfMemory>
    requires { excess (tree.Both (plain value.block) (tree.Does (instruction ∷ []))) ≡ 0 }
    ensures { IfOk result (λ made. plain made.block ≡ tree.Both (plain value.block) (tree.Does (instruction ∷ []))) }
{
    let (value, code) = both(value, List::of(alloc, instruction))?;
    then(alloc, value, code)
}

/// A check of a value.
#[tactic(auto, unfolding(crate::specs::Excess::excess))]
pub fn checked(alloc: Global, value: Part, range: Range) -> Result<Part, OutOfMemory>
    requires { excess (tree.Both (plain value.block) (tree.Does (own.check_code range))) ≡ 0 }
    ensures { IfOk result (λ made. plain made.block ≡ tree.Both (plain value.block) (tree.Does (own.check_code range))) }
{
    let (value, code) = both(value, check(alloc, range))?;
    then(alloc, value, code)
}

/// A conversion of a value.
#[tactic(auto, unfolding(crate::specs::Excess::excess))]
pub fn converted(alloc: Global, value: Part, how: Conversion) -> Result<Part, OutOfMemory>
    requires { excess (tree.Both (plain value.block) (tree.Does (own.conversion_code how))) ≡ 0 }
    ensures { IfOk result (λ made. plain made.block ≡ tree.Both (plain value.block) (tree.Does (own.conversion_code how))) }
{
    let (value, code) = both(value, conversion(alloc, how))?;
    then(alloc, value, code)
}

/// Of a value of so many words the last of some fields, each a field of the one before. With its words.
#[tactic(auto, unfolding(crate::specs::Excess::excess))]
pub fn field_of(
    alloc: Global,
    value: Part,
    words: u64,
    parts: &[mesa_types::Part],
) -> Result<(Part, u64), OutOfMemory>
    requires { excess (tree.Both (plain value.block) (tree.Does (own.field_code (words_before_last parts.now) (last_words parts.now) (words - (words_before_last parts.now + last_words parts.now))))) ≡ 0 }
    ensures block { IfOk result (λ made. plain made.0.block ≡ tree.Both (plain value.block) (tree.Does (own.field_code (words_before_last parts.now) (last_words parts.now) (words - (words_before_last parts.now + last_words parts.now))))) }
    ensures words { IfOk result (λ made. made.1 ≡ last_words parts.now) }
{
    let last = words_of_last(parts);
    let (value, code) = both(value, last_field(alloc, words, parts, last))?;
    Ok((then(alloc, value, code)?, last))
}

/// An instruction behind two values.
#[tactic(auto, unfolding(crate::specs::Excess::excess))]
pub fn two_instructed(
    alloc: Global,
    first: Part,
    second: Part,
    instruction: Instruction,
) -> Result<Part, OutOfMemory>
    requires { excess (tree.Both (plain first.block) (tree.Both (plain second.block) (tree.Does (instruction ∷ [])))) ≡ 0 }
    ensures { IfOk result (λ made. plain made.block ≡ tree.Both (plain first.block) (tree.Both (plain second.block) (tree.Does (instruction ∷ [])))) }
{
    let (first, second) = both(first, instructed(alloc, second, instruction))?;
    pair(alloc, first, second)
}

/// Whether a relation holds between two values.
#[tactic(auto, unfolding(crate::specs::Excess::excess))]
pub fn related(
    alloc: Global,
    left: Part,
    right: Part,
    base: Base,
    how: Relation,
) -> Result<Part, OutOfMemory>
    requires { excess (tree.Both (plain left.block) (tree.Both (plain right.block) (tree.Does (own.relation_code base how)))) ≡ 0 }
    ensures { IfOk result (λ made. plain made.block ≡ tree.Both (plain left.block) (tree.Both (plain right.block) (tree.Does (own.relation_code base how)))) }
{
    let ((left, right), code) = both((left, right), relation(alloc, base, how))?;
    let (left, right) = both(left, then(alloc, right, code))?;
    pair(alloc, left, right)
}

/// Whether a relation holds between two LONG numbers.
#[tactic(auto, unfolding(crate::specs::Excess::excess))]
pub fn long_related(
    alloc: Global,
    left: Part,
    right: Part,
    base: Base,
    how: Relation,
) -> Result<Part, OutOfMemory>
    requires { excess (tree.Both (plain left.block) (tree.Both (plain right.block) (tree.Does (own.long_relation_code base how)))) ≡ 0 }
    ensures { IfOk result (λ made. plain made.block ≡ tree.Both (plain left.block) (tree.Both (plain right.block) (tree.Does (own.long_relation_code base how)))) }
{
    let ((left, right), code) = both((left, right), long_relation(alloc, base, how))?;
    let (left, right) = both(left, then(alloc, right, code))?;
    pair(alloc, left, right)
}

/// Out to the end of a part where a relation holds between two values, or where it does not.
#[tactic(auto, unfolding(crate::specs::Excess::excess))]
pub fn leapt_where_related(
    alloc: Global,
    left: Part,
    right: Part,
    base: Base,
    how: Relation,
    sense: bool,
    part: u32,
) -> Result<Part, OutOfMemory>
    requires { excess (tree.Both (plain left.block) (tree.Both (plain right.block) (spec.where_related base how sense part))) ≡ 0 }
    ensures { IfOk result (λ made. plain made.block ≡ tree.Both (plain left.block) (tree.Both (plain right.block) (spec.where_related base how sense part))) }
{
    let ((left, right), leap) = both((left, right), where_related(alloc, base, how, sense, part))?;
    let (left, right) = both(left, pair(alloc, right, leap))?;
    pair(alloc, left, right)
}

/// The same of LONG numbers.
#[tactic(auto, unfolding(crate::specs::Excess::excess))]
pub fn leapt_where_long_related(
    alloc: Global,
    left: Part,
    right: Part,
    base: Base,
    how: Relation,
    sense: bool,
    part: u32,
) -> Result<Part, OutOfMemory>
    requires { excess (tree.Both (plain left.block) (tree.Both (plain right.block) (spec.where_long_related base how sense part))) ≡ 0 }
    ensures { IfOk result (λ made. plain made.block ≡ tree.Both (plain left.block) (tree.Both (plain right.block) (spec.where_long_related base how sense part))) }
{
    let ((left, right), leap) = both(
        (left, right),
        where_long_related(alloc, base, how, sense, part),
    )?;
    let (left, right) = both(left, pair(alloc, right, leap))?;
    pair(alloc, left, right)
}

/// Out to the end of a part where a value is true, or where it is not.
#[tactic(auto, unfolding(crate::specs::Excess::excess))]
pub fn leapt(alloc: Global, value: Part, sense: bool, part: u32) -> Result<Part, OutOfMemory>
    requires { excess (tree.Both (plain value.block) (tree.Out (tree.Where sense) part)) ≡ 0 }
    ensures { IfOk result (λ made. plain made.block ≡ tree.Both (plain value.block) (tree.Out (tree.Where sense) part)) }
{
    pair(alloc, value, out(Leap::Where(sense), part))
}

/// Whether a value lies in an interval, by its bounds.
#[tactic(auto, unfolding(crate::specs::Excess::excess))]
pub fn lying_within(
    alloc: Global,
    routine: &Routine,
    value: Part,
    bounds: Part,
    bases: Bases,
    first_is_open: bool,
    last_is_open: bool,
) -> Result<Part, OutOfMemory>
    requires { excess (tree.Both (plain value.block) (tree.Both (plain bounds.block) (tree.Does (own.within_code (scratch (coded routine.now)) bases first_is_open last_is_open)))) ≡ 0 }
    ensures { IfOk result (λ made. plain made.block ≡ tree.Both (plain value.block) (tree.Both (plain bounds.block) (tree.Does (own.within_code (scratch (coded routine.now)) bases first_is_open last_is_open)))) }
{
    let ((value, bounds), code) = both(
        (value, bounds),
        within(alloc, routine, bases, first_is_open, last_is_open),
    )?;
    let (value, bounds) = both(value, then(alloc, bounds, code))?;
    pair(alloc, value, bounds)
}

/// Whether a LONG number lies in an interval, by its bounds.
#[tactic(auto, unfolding(crate::specs::Excess::excess))]
pub fn long_lying_within(
    alloc: Global,
    routine: &Routine,
    value: Part,
    bounds: Part,
    bases: Bases,
    first_is_open: bool,
    last_is_open: bool,
) -> Result<Part, OutOfMemory>
    requires { excess (tree.Both (plain value.block) (tree.Both (plain bounds.block) (tree.Does (own.long_within_code (scratch (coded routine.now)) bases first_is_open last_is_open)))) ≡ 0 }
    ensures { IfOk result (λ made. plain made.block ≡ tree.Both (plain value.block) (tree.Both (plain bounds.block) (tree.Does (own.long_within_code (scratch (coded routine.now)) bases first_is_open last_is_open)))) }
{
    let ((value, bounds), code) = both(
        (value, bounds),
        long_within(alloc, routine, bases, first_is_open, last_is_open),
    )?;
    let (value, bounds) = both(value, then(alloc, bounds, code))?;
    pair(alloc, value, bounds)
}
