//! Instructions that move words of the operand stack.
ghost use Rattle.std.specs.Prelude.{◌≡◌, ◌++◌, OnOk};
ghost use Rattle.code_rules.specs.OwnCode.{drop_code, field_code, lift_code, pop_code};
ghost use Rattle.code_trees.specs.Excess.{excess_in};

use crate::block::Code;
use code_forms::Instruction;
use mesa_base::OutOfMemory;

#[tactic(auto, unfolding(crate::specs::Excess::excess_in, crate::specs::Excess::excess_of), using(crate::proofs::OwnCode::popped))]
pub fn put_pop(code: &mut Code, words: u64) -> Result<(), OutOfMemory>
    requires { excess_in (pop_code words) ≡ 0 }
    ensures { OnOk result (code.new ≡ code.old ++ pop_code words) }
{
    if words != 0 {
        code.push(Instruction::Pop {
            words: words as u16,
        })?;
    }
    Ok(())
}

/// The words under so many others come to the top.
#[tactic(auto, unfolding(crate::specs::Excess::excess_in, crate::specs::Excess::excess_of), using(crate::proofs::OwnCode::lifted))]
pub fn put_lift(code: &mut Code, words: u64, over: u64) -> Result<(), OutOfMemory>
    requires { excess_in (lift_code words over) ≡ 0 }
    ensures { OnOk result (code.new ≡ code.old ++ lift_code words over) }
{
    if over != 0 {
        code.push(Instruction::Roll {
            words: words as u16,
            over: over as u16,
        })?;
    }
    Ok(())
}

/// The words under so many others are dropped.
#[tactic(auto, unfolding(crate::specs::Excess::excess_in, crate::specs::Excess::excess_of), using(crate::proofs::OwnCode::dropped, crate::proofs::OwnCode::excess_both))]
pub fn put_drop(code: &mut Code, words: u64, over: u64) -> Result<(), OutOfMemory>
    requires { excess_in (drop_code words over) ≡ 0 }
    ensures { OnOk result (code.new ≡ code.old ++ drop_code words over) }
{
    if words != 0 {
        put_lift(code, words, over)?;
        code.push(Instruction::Pop {
            words: words as u16,
        })?;
    }
    Ok(())
}

/// Of a value, so many words after so many.
#[tactic(auto, unfolding(crate::specs::Excess::excess_in, crate::specs::Excess::excess_of), using(crate::proofs::OwnCode::excess_both))]
pub fn put_field(code: &mut Code, before: u64, words: u64, after: u64) -> Result<(), OutOfMemory>
    requires { excess_in (field_code before words after) ≡ 0 }
    ensures { OnOk result (code.new ≡ code.old ++ field_code before words after) }
{
    put_pop(code, after)?;
    put_drop(code, before, words)
}
