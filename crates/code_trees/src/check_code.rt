//! Checks, indexes and relations.
ghost use Rattle.std.specs.Prelude.{◌≡◌, ◌++◌, OnOk};
ghost use Rattle.code_rules.specs.OwnCode as own;
ghost use Rattle.code_trees.specs.Excess.{excess_in};

use crate::block::Code;
use code_forms::Instruction;
use mesa_base::{OutOfMemory, Relation};
use mesa_types::{Base, Extent, Range};

pub fn put_check(code: &mut Code, range: Range) -> Result<(), OutOfMemory>
    ensures { OnOk result (code.new ≡ code.old ++ own.check_code range) }
{
    match range {
        Range::Every => {}
        Range::From(Base::Signed, least, most) => code.push(Instruction::CheckI { least, most })?,
        Range::From(Base::Unsigned, least, most) => {
            code.push(Instruction::CheckC { least, most })?
        }
    }
    Ok(())
}

/// An index counts from the index type's first word.
#[tactic(auto, using(crate::proofs::OwnCode::from_first))]
fn put_first(code: &mut Code, first: u16) -> Result<(), OutOfMemory>
    ensures { OnOk result (code.new ≡ code.old ++ own.from_code first) }
{
    if first != 0 {
        code.extend_from_slice(&[Instruction::Lit { word: first }, Instruction::Sub])?;
    }
    Ok(())
}

/// The offset so far and the index are on the operand stack.
#[tactic(auto, unfolding(crate::specs::Excess::excess_in, crate::specs::Excess::excess_of), using(crate::proofs::OwnCode::excess_both))]
pub fn put_index(code: &mut Code, extent: Extent) -> Result<(), OutOfMemory>
    requires { excess_in (own.index_code extent.check extent.first extent.elements extent.words) ≡ 0 }
    ensures { OnOk result (code.new ≡ code.old ++ own.index_code extent.check extent.first extent.elements extent.words) }
{
    put_check(code, extent.check)?;
    put_first(code, extent.first)?;
    code.push(Instruction::Index {
        count: extent.elements as u16,
        size: extent.words as u16,
    })?;
    Ok(())
}

pub fn less(base: Base) -> Instruction
    ensures { result ≡ own.less base }
{
    match base {
        Base::Signed => Instruction::LessI,
        Base::Unsigned => Instruction::LessC,
    }
}

/// A relation, or its opposite.
pub fn put_comparison(code: &mut Code, base: Base, relation: Relation) -> Result<(), OutOfMemory>
    ensures { OnOk result (code.new ≡ code.old ++ own.comparison base relation) }
{
    match relation {
        Relation::Equal | Relation::NotEqual => code.push(Instruction::Eq)?,
        Relation::Less | Relation::AtLeast => code.push(less(base))?,
        Relation::AtMost | Relation::Greater => {
            code.extend_from_slice(&[Instruction::Roll { words: 1, over: 1 }, less(base)])?
        }
    }
    Ok(())
}

pub fn is_opposite(relation: Relation) -> bool
    ensures { result ≡ own.is_opposite relation }
{
    match relation {
        Relation::Equal | Relation::Less | Relation::Greater => false,
        Relation::NotEqual | Relation::AtMost | Relation::AtLeast => true,
    }
}

pub fn put_relation(code: &mut Code, base: Base, relation: Relation) -> Result<(), OutOfMemory>
    ensures { OnOk result (code.new ≡ code.old ++ own.relation_code base relation) }
{
    put_comparison(code, base, relation)?;
    if is_opposite(relation) {
        code.push(Instruction::Not)?;
    }
    Ok(())
}
