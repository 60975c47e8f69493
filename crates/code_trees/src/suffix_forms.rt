//! The names of parts of variables.
ghost use Rattle.std.specs.Prelude.{◌≡◌, ◌+◌, ◌≤◌, [], ◌∷◌, ◌++◌, map, IfOk};
ghost use Rattle.mesa_base.specs.Chain.{chain};
ghost use Rattle.mesa_types.specs.Plain.{suffix};
ghost use Rattle.mesa_types.specs.Typed as t;
ghost use Rattle.code_rules.specs.OwnCode as own;
ghost use Rattle.code_rules.specs.Slots as slots;
ghost use Rattle.code_blocks.specs.Blocks as tree;
ghost use Rattle.code_blocks.specs.Own.{bytes_in};
ghost use Rattle.code_blocks.specs.Sizes.{size};
ghost use Rattle.code_blocks.specs.Translation as spec;
ghost use Rattle.code_trees.specs.Excess.{excess, excess_in};
ghost use Rattle.code_trees.specs.Plain.{plain, plain_blocks};
ghost use Rattle.code_trees.specs.Rows.{sizes_in};

use crate::forms::{followed, single};
use crate::making::{does, joined};
use crate::own_code::index;
use crate::part::{Part, Row};
use crate::sums::together;
use code_forms::Instruction;
use held_trees::both;
use mesa_base::OutOfMemory;
use mesa_types::{Extent, Suffix};
use std::alloc::Global;

/// Whether there is an index among suffixes.
pub fn has_index(suffixes: &[Suffix]) -> bool
    ensures { result ≡ spec.has_index (chain (map suffix suffixes.now) t.NoSuffix) }
{
    for suffix in suffixes {
        if let Suffix::Index(_, _) = suffix {
            return true;
        }
    }
    false
}

/// The words of the fields among suffixes.
pub fn fields_of(suffixes: &[Suffix]) -> Result<u64, OutOfMemory>
    ensures { IfOk result (λ words. words ≡ slots.fields_of (chain (map suffix suffixes.now) t.NoSuffix)) }
{
    let mut words = 0u64;
    for suffix in suffixes {
        if let Suffix::Field(_, offset) = suffix {
            words = together(words, u64::from(*offset))?;
        }
    }
    Ok(words)
}

/// With an index the offset of the fields is on the operand stack before what follows.
#[tactic(auto, unfolding(crate::specs::Excess::excess, crate::specs::Excess::excess_in, crate::specs::Excess::excess_of))]
pub fn at_element(alloc: Global, suffixes: &[Suffix], path: Part) -> Result<Part, OutOfMemory>
    requires { excess (spec.at_element (chain (map suffix suffixes.now) t.NoSuffix) (plain path.block)) ≡ 0 }
    ensures { IfOk result (λ made. plain made.block ≡ spec.at_element (chain (map suffix suffixes.now) t.NoSuffix) (plain path.block)) }
{
    let (path, fields) = both(path, fields_of(suffixes))?;
    let (path, offset) = both(
        path,
        single(
            alloc,
            Instruction::Lit {
                word: fields as u16,
            },
        ),
    )?;
    followed(alloc, offset, path)
}

/// An index more: its value, and behind it the steps to the element.
#[tactic(auto, unfolding(crate::specs::Rows::sizes_in), using(crate::proofs::RowLaws::sizes_more, crate::proofs::RowLaws::two_more))]
pub fn indexed(alloc: Global, row: Row, value: Part, extent: Extent) -> Result<Row, OutOfMemory>
    requires fits { excess_in (own.index_code extent.check extent.first extent.elements extent.words) ≡ 0 }
    requires small { sizes_in (plain_blocks row.blocks) + (size (plain value.block) + bytes_in (own.index_code extent.check extent.first extent.elements extent.words)) ≤ 4294967295 }
    ensures { IfOk result (λ longer. plain_blocks longer.blocks ≡ plain_blocks row.blocks ++ plain value.block ∷ tree.Does (own.index_code extent.check extent.first extent.elements extent.words) ∷ []) }
{
    let row = joined(row, value)?;
    let (row, code) = both(row, index(alloc, extent))?;
    joined(row, does(code))
}
