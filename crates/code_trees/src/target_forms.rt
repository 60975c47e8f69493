//! The targets of an extractor by what the paths to them are.
ghost use Rattle.std.specs.Prelude.{◌≡◌, ◌+◌, ◌-◌, ◌≤◌, [], ◌∷◌, ◌++◌, map, reverse, suc, IfOk, OnOk};
ghost use Rattle.mesa_base.specs.Chain.{chain};
ghost use Rattle.mesa_types.specs.Plain.{suffix};
ghost use Rattle.mesa_types.specs.Typed as t;
ghost use Rattle.code_forms.specs.declared.instruction.Instruction.TheVariants as i;
ghost use Rattle.code_rules.specs.CodeFor as relation;
ghost use Rattle.code_rules.specs.OwnCode.{lift_code, pop_code};
ghost use Rattle.code_rules.specs.Slots as slots;
ghost use Rattle.code_blocks.specs.Blocks as tree;
ghost use Rattle.code_blocks.specs.Translation as spec;
ghost use Rattle.code_trees.specs.Excess.{excess, excess_in};
ghost use Rattle.code_trees.specs.Forms.{given_code, target_of, words_stored};
ghost use Rattle.code_trees.specs.Plain.{in_order, plain, plain_blocks};
ghost use Rattle.code_trees.specs.Routines.{coded};
ghost use Rattle.code_trees.specs.Rows.{excess_among, sizes_in};

use crate::block::Code;
use crate::check_code::put_check;
use crate::forms::single;
use crate::long_code::put_conversion;
use crate::making::{closed, does, joined};
use crate::part::{Part, Row};
use crate::routine::Routine;
use crate::slot_code::{store, store_within};
use crate::stack_code::{put_lift, put_pop};
use crate::suffix_forms::{fields_of, has_index};
use crate::sums::together;
use code_forms::Instruction;
use held_trees::{LetGo, both};
use mesa_base::{List, OutOfMemory};
use mesa_types::{Conversion, Parts, Range, Target};
use std::alloc::Global;

/// The blocks of targets, with the parts that they take in order.
pub struct Taking {
    pub row: Row,
    pub taken: Parts,
}

impl LetGo for Taking {
    fn let_go(self) {
        let Taking { row, taken: _ } = self;
        row.let_go();
    }
}

/// The words of those parts that lie behind one.
fn taken_behind(part: mesa_types::Part, taken: &[mesa_types::Part]) -> Result<u64, OutOfMemory>
    ensures { IfOk result (λ words. words ≡ relation.taken_behind part taken.now) }
{
    let mut words = 0u64;
    for other in taken {
        if part.offset < other.offset {
            words = together(words, u64::from(other.words))?;
        }
    }
    Ok(words)
}

/// The words of parts together.
fn words_taken(taken: &[mesa_types::Part]) -> Result<u64, OutOfMemory>
    ensures { IfOk result (λ words. words ≡ relation.words_taken taken.now) }
{
    let mut words = 0u64;
    for part in taken {
        words = together(words, u64::from(part.words))?;
    }
    Ok(words)
}

/// The words over a part, once those were taken.
#[tactic(auto, using(crate::proofs::TargetLaws::behind_reversed))]
fn words_over(
    all: u64,
    taken: &[mesa_types::Part],
    part: mesa_types::Part,
) -> Result<u64, OutOfMemory>
    ensures { IfOk result (λ over. over ≡ relation.words_over all (reverse taken.now) part) }
{
    let behind = taken_behind(part, taken)?;
    let past = u64::from(part.offset) + u64::from(part.words);
    Ok(all.saturating_sub(past).saturating_sub(behind))
}

/// What a target does with its part before that is stored.
fn put_given(code: &mut Code, how: Conversion, check: Range) -> Result<(), OutOfMemory>
    ensures { OnOk result (code.new ≡ code.old ++ given_code how check) }
{
    match how {
        Conversion::Kept => put_check(code, check),
        Conversion::Widened(_, _) | Conversion::Narrowed(_, _, _) | Conversion::InCommon => {
            put_conversion(code, how)
        }
    }
}

/// The words that are stored of a part of so many.
#[tactic(auto, unfolding(mesa_types::specs::Counts::words_after))]
fn words_stored(how: Conversion, words: u64) -> u64
    ensures { result ≡ words_stored how words }
{
    match how {
        Conversion::Kept => words,
        Conversion::Widened(_, _) | Conversion::InCommon => 2,
        Conversion::Narrowed(_, _, _) => 1,
    }
}

/// A part comes to the top, is converted or checked, and stored.
#[tactic(auto, unfolding(crate::specs::Excess::excess_in), using(crate::proofs::OwnCode::excess_both))]
fn taking_code(
    alloc: Global,
    words: u64,
    over: u64,
    how: Conversion,
    check: Range,
    set: Instruction,
) -> Result<Code, OutOfMemory>
    requires { excess_in (lift_code words over ++ (given_code how check ++ set ∷ [])) ≡ 0 }
    ensures { IfOk result (λ code. code ≡ lift_code words over ++ (given_code how check ++ set ∷ [])) }
{
    let mut code = List::new(alloc);
    put_lift(&mut code, words, over)?;
    put_given(&mut code, how, check)?;
    code.push(set)?;
    Ok(code)
}

/// A target that is an element: its offset is on the operand stack before its part comes to the top.
#[tactic(auto, unfolding(crate::specs::Rows::sizes_in, crate::specs::Rows::excess_among, crate::specs::Excess::excess, crate::specs::Excess::excess_in, crate::specs::Excess::excess_of), using(crate::proofs::RowLaws::sizes_more, crate::proofs::RowLaws::three_more))]
fn with_element(
    alloc: Global,
    row: Row,
    fields: u64,
    path: Part,
    code: Code,
) -> Result<Row, OutOfMemory>
    requires small { sizes_in (plain_blocks row.blocks) + sizes_in (tree.Does (i.Lit fields ∷ []) ∷ plain path.block ∷ tree.Does code ∷ []) ≤ 4294967295 }
    requires fits { excess_among (tree.Does (i.Lit fields ∷ []) ∷ plain path.block ∷ tree.Does code ∷ []) ≡ 0 }
    ensures { IfOk result (λ longer. plain_blocks longer.blocks ≡ plain_blocks row.blocks ++ tree.Does (i.Lit fields ∷ []) ∷ plain path.block ∷ tree.Does code ∷ []) }
{
    let offset = Instruction::Lit {
        word: fields as u16,
    };
    let ((row, path), offset) = both((row, path), single(alloc, offset))?;
    let (path, row) = both(path, joined(row, offset))?;
    let row = joined(row, path)?;
    joined(row, does(code))
}

/// The code of a target: it takes a part that lies so many words deep.
#[tactic(auto, unfolding(crate::specs::Rows::excess_among, crate::specs::Excess::excess, crate::specs::Excess::excess_in, crate::specs::Excess::excess_of), using(crate::proofs::Widths::lift_small, crate::proofs::OwnCode::excess_both))]
fn element_code(
    alloc: Global,
    routine: &Routine,
    target: &Target,
    over: u64,
) -> Result<Code, OutOfMemory>
    requires { excess_in (lift_code target.now.part.words (suc over) ++ (given_code target.now.conversion target.now.check ++ slots.store_within (coded routine.now) target.now.home (words_stored target.now.conversion target.now.part.words) ∷ [])) ≡ 0 }
    ensures { IfOk result (λ code. code ≡ lift_code target.now.part.words (suc over) ++ (given_code target.now.conversion target.now.check ++ slots.store_within (coded routine.now) target.now.home (words_stored target.now.conversion target.now.part.words) ∷ [])) }
{
    let words = u64::from(target.part.words);
    let stored = words_stored(target.conversion, words);
    let set = store_within(routine, target.home, stored);
    taking_code(alloc, words, over + 1, target.conversion, target.check, set)
}

/// The code of a target that is no element.
#[tactic(auto, unfolding(crate::specs::Excess::excess_in), using(crate::proofs::OwnCode::excess_both))]
fn variable_code(
    alloc: Global,
    routine: &Routine,
    target: &Target,
    over: u64,
    fields: u64,
) -> Result<Code, OutOfMemory>
    requires { excess_in (lift_code target.now.part.words over ++ (given_code target.now.conversion target.now.check ++ slots.store (coded routine.now) target.now.home fields (words_stored target.now.conversion target.now.part.words) ∷ [])) ≡ 0 }
    ensures { IfOk result (λ code. code ≡ lift_code target.now.part.words over ++ (given_code target.now.conversion target.now.check ++ slots.store (coded routine.now) target.now.home fields (words_stored target.now.conversion target.now.part.words) ∷ [])) }
{
    let words = u64::from(target.part.words);
    let stored = words_stored(target.conversion, words);
    let set = store(routine, target.home, fields, stored);
    taking_code(alloc, words, over, target.conversion, target.check, set)
}

/// The blocks of a target behind the others. The path to it has no code where there is no index on it.
#[tactic(auto, unfolding(crate::specs::Rows::sizes_in, crate::specs::Rows::excess_among, crate::specs::Excess::excess))]
fn with_target(
    alloc: Global,
    routine: &Routine,
    row: Row,
    target: &Target,
    over: u64,
    path: Part,
) -> Result<Row, OutOfMemory>
    requires small { sizes_in (plain_blocks row.blocks) + sizes_in (target_of (coded routine.now) over target.now.part target.now.home (chain (map suffix target.now.suffixes) t.NoSuffix) target.now.conversion target.now.check (plain path.block)) ≤ 4294967295 }
    requires fits { excess_among (target_of (coded routine.now) over target.now.part target.now.home (chain (map suffix target.now.suffixes) t.NoSuffix) target.now.conversion target.now.check (plain path.block)) ≡ 0 }
    ensures { IfOk result (λ longer. plain_blocks longer.blocks ≡ plain_blocks row.blocks ++ target_of (coded routine.now) over target.now.part target.now.home (chain (map suffix target.now.suffixes) t.NoSuffix) target.now.conversion target.now.check (plain path.block)) }
{
    let ((row, path), fields) = both((row, path), fields_of(target.suffixes.as_slice()))?;
    if has_index(target.suffixes.as_slice()) {
        let ((row, path), code) = both((row, path), element_code(alloc, routine, target, over))?;
        with_element(alloc, row, fields, path, code)
    } else {
        path.let_go();
        let (row, code) = both(row, variable_code(alloc, routine, target, over, fields))?;
        joined(row, does(code))
    }
}

fn put_part(taken: &mut Parts, part: mesa_types::Part) -> Result<(), OutOfMemory>
    ensures { OnOk result (taken.new ≡ taken.old ++ part ∷ []) }
{
    taken.push(part)?;
    Ok(())
}

/// A target more at the end.
#[tactic(auto, unfolding(crate::specs::Rows::sizes_in))]
pub fn take(
    alloc: Global,
    routine: &Routine,
    held: Taking,
    all: u64,
    target: &Target,
    path: Part,
) -> Result<Taking, OutOfMemory>
    requires small { sizes_in (plain_blocks held.row.blocks) + sizes_in (target_of (coded routine.now) (relation.words_over all (reverse held.taken) target.now.part) target.now.part target.now.home (chain (map suffix target.now.suffixes) t.NoSuffix) target.now.conversion target.now.check (plain path.block)) ≤ 4294967295 }
    requires fits { excess_among (target_of (coded routine.now) (relation.words_over all (reverse held.taken) target.now.part) target.now.part target.now.home (chain (map suffix target.now.suffixes) t.NoSuffix) target.now.conversion target.now.check (plain path.block)) ≡ 0 }
    ensures blocks { IfOk result (λ longer. plain_blocks longer.row.blocks ≡ plain_blocks held.row.blocks ++ target_of (coded routine.now) (relation.words_over all (reverse held.taken) target.now.part) target.now.part target.now.home (chain (map suffix target.now.suffixes) t.NoSuffix) target.now.conversion target.now.check (plain path.block)) }
    ensures taken { IfOk result (λ longer. longer.taken ≡ held.taken ++ target.now.part ∷ []) }
{
    let Taking { row, mut taken } = held;
    let ((row, path), over) = both((row, path), words_over(all, taken.as_slice(), target.part))?;
    let row = with_target(alloc, routine, row, target, over, path)?;
    let (row, ()) = both(row, put_part(&mut taken, target.part))?;
    Ok(Taking { row, taken })
}

/// The words that no target takes.
#[tactic(auto, using(crate::proofs::TargetLaws::taken_reversed))]
fn words_left(all: u64, taken: &[mesa_types::Part]) -> Result<u64, OutOfMemory>
    ensures { IfOk result (λ left. left ≡ all - relation.words_taken (reverse taken.now)) }
{
    let words = words_taken(taken)?;
    Ok(all.saturating_sub(words))
}

/// So many words are dropped.
#[tactic(auto, unfolding(crate::specs::Excess::excess))]
fn without_words(alloc: Global, words: u64) -> Result<Part, OutOfMemory>
    requires { excess (tree.Does (pop_code words)) ≡ 0 }
    ensures { IfOk result (λ made. plain made.block ≡ tree.Does (pop_code words)) }
{
    let mut code = List::new(alloc);
    put_pop(&mut code, words)?;
    Ok(does(code))
}

/// The targets, and behind them the words that none takes are dropped.
pub fn taken(alloc: Global, held: Taking, all: u64) -> Result<Part, OutOfMemory>
    requires { excess (in_order (plain_blocks held.row.blocks) (tree.Does (pop_code (all - relation.words_taken (reverse held.taken))))) ≡ 0 }
    ensures { IfOk result (λ made. plain made.block ≡ in_order (plain_blocks held.row.blocks) (tree.Does (pop_code (all - relation.words_taken (reverse held.taken))))) }
{
    let Taking { row, taken } = held;
    let (row, left) = both(row, words_left(all, taken.as_slice()))?;
    let (row, last) = both(row, without_words(alloc, left))?;
    closed(alloc, row, last)
}
