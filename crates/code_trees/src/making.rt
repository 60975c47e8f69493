//! Blocks made of their parts.
ghost use Rattle.std.specs.Prelude.{◌≡◌, ◌+◌, ◌≤◌, [], ◌∷◌, ◌++◌, IfOk, OnOk};
ghost use Rattle.code_blocks.specs.Blocks as tree;
ghost use Rattle.code_blocks.specs.Own.{bytes_in};
ghost use Rattle.code_blocks.specs.Sizes.{size};
ghost use Rattle.code_trees.specs.Plain.{in_order, leap_of, mark_of, off_in_arms, plain, plain_arms, plain_blocks, point_of};
ghost use Rattle.code_trees.specs.Rows.{sizes_in};

use crate::block::{ArmBlocks, Block, Code, Leap, Mark, Point};
use crate::part::{Part, Row, Values};
use code_forms::Instruction;
use held_trees::{both, boxed, pushed};
use mesa_base::{List, OutOfMemory};
use std::alloc::Global;

/// The bytes of instructions.
fn bytes_of(code: &[Instruction]) -> u32
    requires { bytes_in code.now ≤ 4294967295 }
    ensures { result ≡ bytes_in code.now }
{
    let mut bytes = 0;
    for instruction in code {
        bytes += instruction.bytes();
    }
    bytes
}

#[tactic(auto, unfolding(crate::specs::Plain::plain, crate::specs::Plain::off))]
pub fn does(code: Code) -> Part
    requires { bytes_in code ≤ 4294967295 }
    ensures { plain result.block ≡ tree.Does code }
{
    let bytes = bytes_of(code.as_slice());
    Part {
        block: Block::Does(code),
        bytes,
    }
}

/// One behind the other.
#[tactic(auto, unfolding(crate::specs::Plain::plain, crate::specs::Plain::off))]
pub fn pair(alloc: Global, first: Part, second: Part) -> Result<Part, OutOfMemory>
    requires { size (plain first.block) + size (plain second.block) ≤ 4294967295 }
    ensures { IfOk result (λ made. plain made.block ≡ tree.Both (plain first.block) (plain second.block)) }
{
    let bytes = first.bytes + second.bytes;
    let Part {
        block: front,
        bytes: _,
    } = first;
    let Part {
        block: last,
        bytes: _,
    } = second;
    let (last, front) = both(last, pushed(List::new(alloc), front))?;
    let (front, last) = both(front, boxed(alloc, last))?;
    Ok(Part {
        block: Block::Sequence(front, last),
        bytes,
    })
}

/// Instructions behind a block.
pub fn then(alloc: Global, first: Part, code: Code) -> Result<Part, OutOfMemory>
    requires bytes { bytes_in code ≤ 4294967295 }
    requires both { size (plain first.block) + bytes_in code ≤ 4294967295 }
    ensures { IfOk result (λ made. plain made.block ≡ tree.Both (plain first.block) (tree.Does code)) }
{
    pair(alloc, first, does(code))
}

#[tactic(auto, unfolding(crate::specs::Plain::plain, crate::specs::Plain::off, crate::specs::Plain::plain_arms, crate::specs::Plain::off_in_arms))]
pub fn calls(call: Instruction, takes: u32, puts: u32, arms: ArmBlocks) -> Part
    requires { off_in_arms arms ≡ 0 }
    ensures { plain result.block ≡ tree.Calls call takes puts (plain_arms arms) }
{
    Part {
        bytes: call.bytes(),
        block: Block::Calls(call, takes, puts, arms),
    }
}

#[tactic(auto, unfolding(crate::specs::Plain::plain, crate::specs::Plain::off))]
pub fn ends(alloc: Global, mark: Mark, part: Part) -> Result<Part, OutOfMemory>
    ensures { IfOk result (λ made. plain made.block ≡ tree.Ends (mark_of mark) (plain part.block)) }
{
    let Part { block, bytes } = part;
    let block = boxed(alloc, block)?;
    Ok(Part {
        block: Block::Ends(mark, bytes, block),
        bytes,
    })
}

#[tactic(auto, unfolding(crate::specs::Plain::plain, crate::specs::Plain::off))]
pub fn out(leap: Leap, part: u32) -> Part
    ensures { plain result.block ≡ tree.Out (leap_of leap) part }
{
    Part {
        block: Block::Out(leap, part),
        bytes: 5,
    }
}

#[tactic(auto, unfolding(crate::specs::Plain::plain, crate::specs::Plain::off))]
pub fn goes(arms: u16, point: Point) -> Part
    ensures { plain result.block ≡ tree.Goes arms (point_of point) }
{
    let bytes = match (arms, point) {
        (0, Point::Leave) => 1,
        (0, _) => 5,
        (_, Point::Leave) => 3,
        (_, _) => 7,
    };
    Part {
        block: Block::Goes(arms, point),
        bytes,
    }
}

#[tactic(auto, unfolding(crate::specs::Plain::plain, crate::specs::Plain::off))]
pub fn rounds(alloc: Global, part: Part) -> Result<Part, OutOfMemory>
    requires { size (plain part.block) + 5 ≤ 4294967295 }
    ensures { IfOk result (λ made. plain made.block ≡ tree.Rounds (plain part.block)) }
{
    let Part { block, bytes } = part;
    let block = boxed(alloc, block)?;
    Ok(Part {
        block: Block::Rounds(block),
        bytes: bytes + 5,
    })
}

#[tactic(auto, unfolding(crate::specs::Plain::plain, crate::specs::Plain::off, crate::specs::Plain::plain_arms, crate::specs::Plain::off_in_arms))]
pub fn enables(alloc: Global, arms: ArmBlocks, part: Part) -> Result<Part, OutOfMemory>
    requires { off_in_arms arms ≡ 0 }
    ensures { IfOk result (λ made. plain made.block ≡ tree.Enables (plain_arms arms) (plain part.block)) }
{
    let Part { block, bytes } = part;
    let (arms, block) = both(arms, boxed(alloc, block))?;
    Ok(Part {
        block: Block::Enables(arms, bytes, block),
        bytes,
    })
}

#[tactic(auto, unfolding(crate::specs::Plain::plain_blocks, crate::specs::Plain::all_off, crate::specs::Rows::sizes_in))]
pub fn no_row(alloc: Global) -> Row
    ensures { plain_blocks result.blocks ≡ [] }
{
    Row {
        blocks: List::new(alloc),
        bytes: 0,
    }
}

/// A block more at the end.
#[tactic(auto, unfolding(crate::specs::Plain::plain, crate::specs::Plain::off), using(crate::proofs::RowLaws::plain_more, crate::proofs::RowLaws::off_more, crate::proofs::RowLaws::sizes_more))]
pub fn joined(row: Row, part: Part) -> Result<Row, OutOfMemory>
    requires { sizes_in (plain_blocks row.blocks) + size (plain part.block) ≤ 4294967295 }
    ensures { IfOk result (λ longer. plain_blocks longer.blocks ≡ plain_blocks row.blocks ++ plain part.block ∷ []) }
{
    let bytes = row.bytes + part.bytes;
    let Row { blocks, bytes: _ } = row;
    let Part { block, bytes: _ } = part;
    Ok(Row {
        blocks: pushed(blocks, block)?,
        bytes,
    })
}

/// The blocks, and behind them the last one.
#[tactic(auto, using(crate::proofs::RowLaws::sequence_plain, crate::proofs::RowLaws::sequence_size, crate::proofs::RowLaws::sequence_off))]
pub fn closed(alloc: Global, row: Row, last: Part) -> Result<Part, OutOfMemory>
    requires { sizes_in (plain_blocks row.blocks) + size (plain last.block) ≤ 4294967295 }
    ensures { IfOk result (λ made. plain made.block ≡ in_order (plain_blocks row.blocks) (plain last.block)) }
{
    let bytes = row.bytes + last.bytes;
    let Row { blocks, bytes: _ } = row;
    let Part { block, bytes: _ } = last;
    let (blocks, block) = both(blocks, boxed(alloc, block))?;
    Ok(Part {
        block: Block::Sequence(blocks, block),
        bytes,
    })
}

/// A value more at the end.
pub fn valued(values: Values, part: Part, words: u64) -> Result<Values, OutOfMemory>
    requires { sizes_in (plain_blocks values.row.blocks) + size (plain part.block) ≤ 4294967295 }
    ensures blocks { IfOk result (λ longer. plain_blocks longer.row.blocks ≡ plain_blocks values.row.blocks ++ plain part.block ∷ []) }
    ensures sizes { IfOk result (λ longer. longer.sizes ≡ values.sizes ++ words ∷ []) }
{
    let Values { row, mut sizes } = values;
    let row = joined(row, part)?;
    let (row, ()) = both(row, put_size(&mut sizes, words))?;
    Ok(Values { row, sizes })
}

fn put_size(sizes: &mut List<u64>, words: u64) -> Result<(), OutOfMemory>
    ensures { OnOk result (sizes.new ≡ sizes.old ++ words ∷ []) }
{
    sizes.push(words)?;
    Ok(())
}
