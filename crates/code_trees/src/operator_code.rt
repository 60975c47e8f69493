//! Operators and intervals. What needs more than the operand stack has scratch words, from a slot on.
ghost use Rattle.std.specs.Prelude.{◌≡◌, ℕ, ◌+◌, ◌≤◌, ◌++◌, OnOk};
ghost use Rattle.code_forms.specs.declared.instruction.Instruction.TheVariants as i;
ghost use Rattle.code_rules.specs.OwnCode as own;
ghost use Rattle.mesa_types.specs.declared.typed_parts.Operator.TheVariants as operators;

use crate::block::Code;
use crate::check_code::less;
use code_forms::Instruction;
use mesa_base::OutOfMemory;
use mesa_types::{Base, Bases, Operator};

fn put_character_sum(code: &mut Code, base: Base) -> Result<(), OutOfMemory>
    ensures { (scratch : ℕ) → OnOk result (code.new ≡ code.old ++ own.operator_code scratch (operators.AddToCharacter base)) }
{
    let character = Instruction::CheckC {
        least: 0,
        most: 255,
    };
    let swap = Instruction::Roll { words: 1, over: 1 };
    match base {
        Base::Unsigned => code.extend_from_slice(&[
            character,
            swap,
            character,
            Instruction::Add,
            character,
        ]),
        Base::Signed => code.extend_from_slice(&[
            Instruction::CheckI {
                least: 32768,
                most: 255,
            },
            swap,
            Instruction::CheckC {
                least: 0,
                most: 33023,
            },
            Instruction::Add,
            character,
        ]),
    }
}

fn put_character_difference(code: &mut Code, scratch: u16, base: Base) -> Result<(), OutOfMemory>
    ensures { OnOk result (code.new ≡ code.old ++ own.operator_code scratch (operators.SubtractFromCharacter base)) }
{
    let character = Instruction::CheckC {
        least: 0,
        most: 255,
    };
    let swap = Instruction::Roll { words: 1, over: 1 };
    let both = Instruction::LoadL {
        slot: scratch,
        words: 2,
    };
    match base {
        Base::Unsigned => code.extend_from_slice(&[
            Instruction::StoreL {
                slot: scratch,
                words: 2,
            },
            both,
            Instruction::LessC,
            Instruction::CheckC { least: 0, most: 0 },
            Instruction::Pop { words: 1 },
            both,
            Instruction::Sub,
            character,
        ]),
        Base::Signed => code.extend_from_slice(&[
            Instruction::CheckI {
                least: 65281,
                most: 32767,
            },
            swap,
            Instruction::CheckC {
                least: 0,
                most: 33022,
            },
            swap,
            Instruction::Sub,
            character,
        ]),
    }
}

pub fn put_operator(code: &mut Code, scratch: u16, operator: Operator) -> Result<(), OutOfMemory>
    ensures { OnOk result (code.new ≡ code.old ++ own.operator_code scratch operator) }
{
    match operator {
        Operator::Add => code.push(Instruction::Add)?,
        Operator::Subtract => code.push(Instruction::Sub)?,
        Operator::Multiply => code.push(Instruction::Mul)?,
        Operator::Divide(Base::Signed) => code.push(Instruction::DivI)?,
        Operator::Divide(Base::Unsigned) => code.push(Instruction::DivC)?,
        Operator::Modulo(Base::Signed) => code.push(Instruction::ModI)?,
        Operator::Modulo(Base::Unsigned) => code.push(Instruction::ModC)?,
        Operator::AddToCharacter(base) => put_character_sum(code, base)?,
        Operator::SubtractFromCharacter(base) => put_character_difference(code, scratch, base)?,
    }
    Ok(())
}

fn word(slot: u16) -> Instruction
    ensures { result ≡ i.LoadL slot 1 }
{
    Instruction::LoadL { slot, words: 1 }
}

/// Whether the word in one slot is less than that in another, as plain numbers.
fn put_less(
    code: &mut Code,
    base: Base,
    slot: u16,
    other: Base,
    bound: u16,
) -> Result<(), OutOfMemory>
    ensures { OnOk result (code.new ≡ code.old ++ own.less_code base slot other bound) }
{
    let zero = Instruction::Lit { word: 0 };
    match (base, other) {
        (Base::Signed, Base::Signed) | (Base::Unsigned, Base::Unsigned) => {
            code.extend_from_slice(&[word(slot), word(bound), less(base)])
        }
        (Base::Signed, Base::Unsigned) => code.extend_from_slice(&[
            word(slot),
            zero,
            Instruction::LessI,
            Instruction::Not,
            word(slot),
            word(bound),
            Instruction::LessC,
            Instruction::Not,
            Instruction::Mul,
            Instruction::Not,
        ]),
        (Base::Unsigned, Base::Signed) => code.extend_from_slice(&[
            word(bound),
            zero,
            Instruction::LessI,
            Instruction::Not,
            word(slot),
            word(bound),
            Instruction::LessC,
            Instruction::Mul,
        ]),
    }
}

/// The word in one slot lies behind that in another, or at it where the interval is not open there.
fn put_bound(
    code: &mut Code,
    is_open: bool,
    base: Base,
    slot: u16,
    other: Base,
    bound: u16,
) -> Result<(), OutOfMemory>
    ensures { OnOk result (code.new ≡ code.old ++ own.bound_code is_open base slot other bound) }
{
    if is_open {
        put_less(code, base, slot, other, bound)
    } else {
        put_less(code, other, bound, base, slot)?;
        code.push(Instruction::Not)?;
        Ok(())
    }
}

/// The number and the two bounds go to three scratch words.
pub fn put_within(
    code: &mut Code,
    scratch: u16,
    bases: Bases,
    first_is_open: bool,
    last_is_open: bool,
) -> Result<(), OutOfMemory>
    requires { scratch + 2 ≤ 65535 }
    ensures { OnOk result (code.new ≡ code.old ++ own.within_code scratch bases first_is_open last_is_open) }
{
    code.push(Instruction::StoreL {
        slot: scratch,
        words: 3,
    })?;
    put_bound(
        code,
        first_is_open,
        bases.first,
        scratch + 1,
        bases.number,
        scratch,
    )?;
    put_bound(
        code,
        last_is_open,
        bases.number,
        scratch,
        bases.last,
        scratch + 2,
    )?;
    code.push(Instruction::Mul)?;
    Ok(())
}
