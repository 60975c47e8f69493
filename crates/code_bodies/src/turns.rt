//! What one part of a list adds to the blocks before it, and the block that reads a variable.
ghost use Rattle.std.specs.Prelude.{◌≡◌, ◌+◌, ◌≤◌, [], ◌∷◌, ◌++◌, map, IfOk};
ghost use Rattle.mesa_base.specs.Chain.{chain};
ghost use Rattle.mesa_types.specs.Plain.{suffix};
ghost use Rattle.mesa_types.specs.Typed as t;
ghost use Rattle.code_rules.specs.Links as coding;
ghost use Rattle.code_rules.specs.OwnCode as own;
ghost use Rattle.code_rules.specs.Reading.{scratch};
ghost use Rattle.code_rules.specs.Slots.{local_slot, words_from};
ghost use Rattle.code_blocks.specs.Blocks as tree;
ghost use Rattle.code_blocks.specs.Own.{bytes_in};
ghost use Rattle.code_blocks.specs.Sizes.{size};
ghost use Rattle.code_trees.specs.ArmRows.{arms_before};
ghost use Rattle.code_trees.specs.Excess.{excess};
ghost use Rattle.code_trees.specs.Plain.{off_in_arms, plain, plain_blocks};
ghost use Rattle.code_trees.specs.Routines.{coded, kinds_laid};
ghost use Rattle.code_trees.specs.Rows.{sizes_in};
ghost use Rattle.code_bodies.specs.Reads.{read_of};

use code_trees::forms::{instructed, single};
use code_trees::link_code::labels;
use code_trees::making::{does, joined};
use code_trees::own_code::{check, long_operator, operator};
use code_trees::slot_code::{load, load_within};
use code_trees::suffix_forms::{at_element, fields_of, has_index};
use code_trees::{ArmBlock, ArmBlocks, Code, Part, Routine, Row};
use held_trees::{LetGo, both, pushed};
use mesa_base::OutOfMemory;
use mesa_types::{Home, Label, Operator, Range, Suffix};
use std::alloc::Global;

/// A variable or a part of it; the path to the part has no code where there is no index on it.
#[tactic(auto, unfolding(code_trees::specs::Excess::excess, code_trees::specs::Excess::excess_in))]
pub(crate) fn read(
    alloc: Global,
    routine: &Routine,
    home: Home,
    suffixes: &[Suffix],
    words: u32,
    path: Part,
) -> Result<Part, OutOfMemory>
    requires { excess (read_of (coded routine.now) home (chain (map suffix suffixes.now) t.NoSuffix) words (plain path.block)) ≡ 0 }
    ensures { IfOk result (λ made. plain made.block ≡ read_of (coded routine.now) home (chain (map suffix suffixes.now) t.NoSuffix) words (plain path.block)) }
{
    let words = u64::from(words);
    if has_index(suffixes) {
        let get = load_within(routine, home, words);
        let path = instructed(alloc, path, get)?;
        at_element(alloc, suffixes, path)
    } else {
        path.let_go();
        let fields = fields_of(suffixes)?;
        single(alloc, load(routine, home, fields, words))
    }
}

fn step_code(
    alloc: Global,
    routine: &Routine,
    range: Range,
    how: Operator,
) -> Result<(Code, Code), OutOfMemory>
    ensures check { IfOk result (λ made. made.0 ≡ own.check_code range) }
    ensures operator { IfOk result (λ made. made.1 ≡ own.operator_code (scratch (coded routine.now)) how) }
{
    let check = check(alloc, range)?;
    Ok((check, operator(alloc, routine, how)?))
}

/// An operator more: the check of what stands to its left, its right side, and its code.
#[tactic(auto, unfolding(code_trees::specs::Rows::sizes_in), using(code_trees::proofs::RowLaws::sizes_more, code_trees::proofs::RowLaws::three_more))]
pub(crate) fn operated(
    alloc: Global,
    routine: &Routine,
    row: Row,
    range: Range,
    how: Operator,
    right: Part,
) -> Result<Row, OutOfMemory>
    requires { sizes_in (plain_blocks row.blocks) + (bytes_in (own.check_code range) + (size (plain right.block) + bytes_in (own.operator_code (scratch (coded routine.now)) how))) ≤ 4294967295 }
    ensures { IfOk result (λ longer. plain_blocks longer.blocks ≡ plain_blocks row.blocks ++ tree.Does (own.check_code range) ∷ plain right.block ∷ tree.Does (own.operator_code (scratch (coded routine.now)) how) ∷ []) }
{
    let ((row, right), (check, code)) = both((row, right), step_code(alloc, routine, range, how))?;
    let (right, row) = both(right, joined(row, does(check)))?;
    let row = joined(row, right)?;
    joined(row, does(code))
}

/// An operator over LONG numbers more: its right side, and its code.
#[tactic(auto, unfolding(code_trees::specs::Rows::sizes_in), using(code_trees::proofs::RowLaws::sizes_more, code_trees::proofs::RowLaws::two_more))]
pub(crate) fn long_operated(
    alloc: Global,
    row: Row,
    how: Operator,
    right: Part,
) -> Result<Row, OutOfMemory>
    requires { sizes_in (plain_blocks row.blocks) + (size (plain right.block) + bytes_in (own.long_operator_code how)) ≤ 4294967295 }
    ensures { IfOk result (λ longer. plain_blocks longer.blocks ≡ plain_blocks row.blocks ++ plain right.block ∷ tree.Does (own.long_operator_code how) ∷ []) }
{
    let row = joined(row, right)?;
    let (row, code) = both(row, long_operator(alloc, how))?;
    joined(row, does(code))
}

/// An arm more: its labels, where its parameters lie, and its block.
#[tactic(auto, unfolding(code_trees::specs::Plain::plain, code_trees::specs::Plain::off), using(code_trees::proofs::ArmRows::arm_more, code_trees::proofs::ArmRows::arm_off_more))]
pub(crate) fn armed(
    alloc: Global,
    routine: &Routine,
    arms: ArmBlocks,
    on: &[Label],
    first: u32,
    count: u32,
    body: Part,
) -> Result<ArmBlocks, OutOfMemory>
    requires right { off_in_arms arms ≡ 0 }
    requires few { words_from (kinds_laid routine.now.locals) first count ≤ 65535 }
    ensures right { IfOk result (λ longer. off_in_arms longer ≡ 0) }
    ensures arms { IfOk result (λ longer. (rest : tree.ArmBlocks) → arms_before longer rest ≡ arms_before arms (tree.AndArmBlock (map (coding.label_code routine.now.links.imports.now) on.now) (local_slot (coded routine.now) first) (words_from (kinds_laid routine.now.locals) first count) (plain body.block) rest)) }
{
    let ((arms, body), labels) = both((arms, body), labels(alloc, &routine.links, on))?;
    let Part {
        block: body,
        bytes: _,
    } = body;
    let arm = ArmBlock {
        labels,
        slot: routine.locals.start(first as usize) as u16,
        words: routine.locals.words_from(first, count) as u16,
        body,
    };
    pushed(arms, arm)
}
