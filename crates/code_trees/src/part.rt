//! Blocks, by themselves and in rows, with the bytes of their code, and values with the words of each.
ghost use Rattle.std.specs.Prelude.{◌≡◌};
ghost use Rattle.code_blocks.specs.Sizes.{size};
ghost use Rattle.code_trees.specs.Plain.{all_off, off, plain, plain_blocks};
ghost use Rattle.code_trees.specs.Rows.{sizes_in};

use crate::block::{Block, Blocks};
use held_trees::LetGo;
use mesa_base::List;

/// A block with the bytes of its code, without that of its arms. Each size in it is right.
pub struct Part {
    pub block: Block,
    pub bytes: u32,
    pub ghost bytes_are: { bytes ≡ size (plain block) },
    pub ghost right: { off block ≡ 0 },
}

impl LetGo for Part {
    fn let_go(self) {
        let Part { block, bytes: _ } = self;
        block.let_go();
    }
}

/// Blocks one behind the other, with the bytes of their code.
pub struct Row {
    pub blocks: Blocks,
    pub bytes: u32,
    pub ghost bytes_are: { bytes ≡ sizes_in (plain_blocks blocks) },
    pub ghost right: { all_off blocks ≡ 0 },
}

impl LetGo for Row {
    fn let_go(self) {
        let Row { blocks, bytes: _ } = self;
        blocks.let_go();
    }
}

/// Values one behind the other, with the words of each.
pub struct Values {
    pub row: Row,
    pub sizes: List<u64>,
}

impl LetGo for Values {
    fn let_go(self) {
        let Values { row, sizes: _ } = self;
        row.let_go();
    }
}
