//! Conversions, and the operators, relations and intervals of LONG numbers. Each has its two words on the operand stack,
//! the more significant one under the other.
ghost use Rattle.std.specs.Prelude.{◌≡◌, ◌+◌, ◌≤◌, ◌++◌, OnOk};
ghost use Rattle.code_forms.specs.declared.instruction.Instruction.TheVariants as i;
ghost use Rattle.code_rules.specs.OwnCode as own;

use crate::block::Code;
use crate::check_code::{is_opposite, put_check};
use code_forms::Instruction;
use mesa_base::{OutOfMemory, Relation};
use mesa_types::{Base, Bases, Conversion, Operator};

#[tactic(auto, unfolding(mesa_types::specs::Longs::more_of, mesa_types::specs::Longs::less_of))]
pub fn put_long(code: &mut Code, number: u32) -> Result<(), OutOfMemory>
    ensures { OnOk result (code.new ≡ code.old ++ own.long_code number) }
{
    code.extend_from_slice(&[
        Instruction::Lit {
            word: (number / 65536) as u16,
        },
        Instruction::Lit {
            word: (number % 65536) as u16,
        },
    ])
}

/// A word becomes a LONG number.
fn put_widened(code: &mut Code, from: Base, to: Base) -> Result<(), OutOfMemory>
    ensures { OnOk result (code.new ≡ code.old ++ own.widen_code from to) }
{
    match (from, to) {
        (Base::Signed, Base::Signed) => code.push(Instruction::WidenI)?,
        (Base::Signed, Base::Unsigned) => {
            code.extend_from_slice(&[Instruction::WidenI, Instruction::CheckD])?
        }
        (Base::Unsigned, Base::Signed) | (Base::Unsigned, Base::Unsigned) => {
            code.push(Instruction::WidenC)?
        }
    }
    Ok(())
}

/// A LONG number becomes a word.
fn put_narrowed(code: &mut Code, from: Base, to: Base) -> Result<(), OutOfMemory>
    ensures { OnOk result (code.new ≡ code.old ++ own.narrow_code from to) }
{
    match (from, to) {
        (Base::Signed, Base::Signed) => code.push(Instruction::NarrowI)?,
        (Base::Unsigned, Base::Signed) => {
            code.extend_from_slice(&[Instruction::CheckD, Instruction::NarrowI])?
        }
        (Base::Signed, Base::Unsigned) | (Base::Unsigned, Base::Unsigned) => {
            code.push(Instruction::NarrowC)?
        }
    }
    Ok(())
}

pub fn put_conversion(code: &mut Code, conversion: Conversion) -> Result<(), OutOfMemory>
    ensures { OnOk result (code.new ≡ code.old ++ own.conversion_code conversion) }
{
    match conversion {
        Conversion::Kept => {}
        Conversion::Widened(from, to) => put_widened(code, from, to)?,
        Conversion::Narrowed(from, to, range) => {
            put_narrowed(code, from, to)?;
            put_check(code, range)?;
        }
        Conversion::InCommon => code.push(Instruction::CheckD)?,
    }
    Ok(())
}

fn less_long(base: Base) -> Instruction
    ensures { result ≡ own.less_long base }
{
    match base {
        Base::Signed => Instruction::LessDI,
        Base::Unsigned => Instruction::LessDC,
    }
}

/// A relation of LONG numbers, or its opposite.
pub fn put_long_comparison(
    code: &mut Code,
    base: Base,
    relation: Relation,
) -> Result<(), OutOfMemory>
    ensures { OnOk result (code.new ≡ code.old ++ own.long_comparison base relation) }
{
    match relation {
        Relation::Equal | Relation::NotEqual => code.push(Instruction::EqD)?,
        Relation::Less | Relation::AtLeast => code.push(less_long(base))?,
        Relation::AtMost | Relation::Greater => code.extend_from_slice(&[
            Instruction::Roll { words: 2, over: 2 },
            less_long(base),
        ])?,
    }
    Ok(())
}

pub fn put_long_relation(code: &mut Code, base: Base, relation: Relation) -> Result<(), OutOfMemory>
    ensures { OnOk result (code.new ≡ code.old ++ own.long_relation_code base relation) }
{
    put_long_comparison(code, base, relation)?;
    if is_opposite(relation) {
        code.push(Instruction::Not)?;
    }
    Ok(())
}

/// In no text is one of the numbers a character.
pub fn put_long_operator(code: &mut Code, operator: Operator) -> Result<(), OutOfMemory>
    ensures { OnOk result (code.new ≡ code.old ++ own.long_operator_code operator) }
{
    match operator {
        Operator::Add | Operator::AddToCharacter(_) => code.push(Instruction::AddD)?,
        Operator::Subtract | Operator::SubtractFromCharacter(_) => code.push(Instruction::SubD)?,
        Operator::Multiply => code.push(Instruction::MulD)?,
        Operator::Divide(Base::Signed) => code.push(Instruction::DivDI)?,
        Operator::Divide(Base::Unsigned) => code.push(Instruction::DivDC)?,
        Operator::Modulo(Base::Signed) => code.push(Instruction::ModDI)?,
        Operator::Modulo(Base::Unsigned) => code.push(Instruction::ModDC)?,
    }
    Ok(())
}

fn two_words(slot: u16) -> Instruction
    ensures { result ≡ i.LoadL slot 2 }
{
    Instruction::LoadL { slot, words: 2 }
}

/// Whether the LONG number in one slot and the next is less than that in another and the next, as plain numbers.
fn put_long_less(
    code: &mut Code,
    base: Base,
    slot: u16,
    other: Base,
    bound: u16,
) -> Result<(), OutOfMemory>
    ensures { OnOk result (code.new ≡ code.old ++ own.long_less_code base slot other bound) }
{
    let zero = Instruction::Lit { word: 0 };
    match (base, other) {
        (Base::Signed, Base::Signed) | (Base::Unsigned, Base::Unsigned) => {
            code.extend_from_slice(&[two_words(slot), two_words(bound), less_long(base)])
        }
        (Base::Signed, Base::Unsigned) => code.extend_from_slice(&[
            two_words(slot),
            zero,
            zero,
            Instruction::LessDI,
            Instruction::Not,
            two_words(slot),
            two_words(bound),
            Instruction::LessDC,
            Instruction::Not,
            Instruction::Mul,
            Instruction::Not,
        ]),
        (Base::Unsigned, Base::Signed) => code.extend_from_slice(&[
            two_words(bound),
            zero,
            zero,
            Instruction::LessDI,
            Instruction::Not,
            two_words(slot),
            two_words(bound),
            Instruction::LessDC,
            Instruction::Mul,
        ]),
    }
}

/// The LONG number in one slot and the next lies behind that in another, or at it where the interval is not open there.
fn put_long_bound(
    code: &mut Code,
    is_open: bool,
    base: Base,
    slot: u16,
    other: Base,
    bound: u16,
) -> Result<(), OutOfMemory>
    ensures { OnOk result (code.new ≡ code.old ++ own.long_bound_code is_open base slot other bound) }
{
    if is_open {
        put_long_less(code, base, slot, other, bound)
    } else {
        put_long_less(code, other, bound, base, slot)?;
        code.push(Instruction::Not)?;
        Ok(())
    }
}

/// The number and the two bounds go to six scratch words.
pub fn put_long_within(
    code: &mut Code,
    scratch: u16,
    bases: Bases,
    first_is_open: bool,
    last_is_open: bool,
) -> Result<(), OutOfMemory>
    requires { scratch + 4 ≤ 65535 }
    ensures { OnOk result (code.new ≡ code.old ++ own.long_within_code scratch bases first_is_open last_is_open) }
{
    code.push(Instruction::StoreL {
        slot: scratch,
        words: 6,
    })?;
    put_long_bound(
        code,
        first_is_open,
        bases.first,
        scratch + 2,
        bases.number,
        scratch,
    )?;
    put_long_bound(
        code,
        last_is_open,
        bases.number,
        scratch,
        bases.last,
        scratch + 4,
    )?;
    code.push(Instruction::Mul)?;
    Ok(())
}
