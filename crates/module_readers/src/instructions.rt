//! Instructions.
ghost use Rattle.std.specs.Prelude.{◌≡◌, ◌<◌, ◌≤◌, [], ◌∷◌, IfOk};
ghost use Rattle.code_forms.specs.Instructions.{bytes_of};
ghost use Rattle.file_forms.specs.Forms.{number, ruled};
ghost use Rattle.file_forms.specs.Reads.{Reads};
ghost use Rattle.mesa_base.specs.declared.file_fault.Field.TheVariants.{Opcode};
ghost use Rattle.module_readers.specs.Behind.{IsNumber, behind};
ghost use Rattle.module_readers.specs.Operands.{sizes_in};
ghost use Rattle.object_rules.specs.Instructions as form;

use crate::making::{of_none, of_number, of_three, of_word, of_words};
use crate::operands::Operands;
use code_forms::Instruction;
use file_forms::{FileCursor, Stopped};
use mesa_base::Field;

// Opcode: there is no such instruction, or it has more bytes than are left.
fn opcode(input: &mut FileCursor<'_>, left: u32) -> Result<u8, Stopped>
    ensures read { Reads ((ruled (number 1) (form.may_stand left) Opcode).read input.old.rest.now) result input.new.rest.now }
    ensures there { IfOk result (λ op. IsNumber op × (form.size_of op ≤ left)) }
{
    let before = input.rest.len();
    let number = input.u8()?;
    if number < 0x01 || number > 0x3D || Operands::of(number).size() > left {
        return Err(Stopped::Bad(Field::Opcode, before));
    }
    Ok(number)
}

#[tactic(auto, unfolding(crate::specs::Behind::behind, object_rules::specs::Instructions::numbers))]
fn with_none(input: &mut FileCursor<'_>, number: u8) -> Result<Instruction, Stopped>
    requires there { IsNumber number }
    requires sizes { form.sizes_of number ≡ [] }
    ensures { Reads ((behind [] number).read input.old.rest.now) result input.new.rest.now }
{
    Ok(of_none(number))
}

#[tactic(auto, unfolding(crate::specs::Behind::behind, object_rules::specs::Instructions::numbers))]
fn with_word(input: &mut FileCursor<'_>, number: u8) -> Result<Instruction, Stopped>
    requires there { IsNumber number }
    requires sizes { form.sizes_of number ≡ 2 ∷ [] }
    ensures { Reads ((behind (2 ∷ []) number).read input.old.rest.now) result input.new.rest.now }
{
    let word = input.u16()?;
    Ok(of_word(number, word))
}

#[tactic(auto, unfolding(crate::specs::Behind::behind, object_rules::specs::Instructions::numbers))]
fn with_words(input: &mut FileCursor<'_>, number: u8) -> Result<Instruction, Stopped>
    requires there { IsNumber number }
    requires sizes { form.sizes_of number ≡ 2 ∷ 2 ∷ [] }
    ensures { Reads ((behind (2 ∷ 2 ∷ []) number).read input.old.rest.now) result input.new.rest.now }
{
    let first = input.u16()?;
    let second = input.u16()?;
    Ok(of_words(number, first, second))
}

#[tactic(auto, unfolding(crate::specs::Behind::behind, object_rules::specs::Instructions::numbers))]
fn with_three(input: &mut FileCursor<'_>, number: u8) -> Result<Instruction, Stopped>
    requires there { IsNumber number }
    requires sizes { form.sizes_of number ≡ 2 ∷ 2 ∷ 2 ∷ [] }
    ensures { Reads ((behind (2 ∷ 2 ∷ 2 ∷ []) number).read input.old.rest.now) result input.new.rest.now }
{
    let slot = input.u16()?;
    let extent = input.u16()?;
    let words = input.u16()?;
    Ok(of_three(number, slot, extent, words))
}

#[tactic(auto, unfolding(crate::specs::Behind::behind, object_rules::specs::Instructions::numbers))]
fn with_number(input: &mut FileCursor<'_>, number: u8) -> Result<Instruction, Stopped>
    requires there { IsNumber number }
    requires sizes { form.sizes_of number ≡ 4 ∷ [] }
    ensures { Reads ((behind (4 ∷ []) number).read input.old.rest.now) result input.new.rest.now }
{
    let operand = input.u32()?;
    Ok(of_number(number, operand))
}

#[tactic(auto, unfolding(crate::specs::Behind::behind, object_rules::specs::Instructions::numbers, object_rules::specs::Instructions::with_operands))]
fn raise_host(input: &mut FileCursor<'_>) -> Result<Instruction, Stopped>
    ensures { Reads ((behind (1 ∷ []) 37).read input.old.rest.now) result input.new.rest.now }
{
    let fault = input.u8()?;
    Ok(Instruction::RaiseHost { fault })
}

#[tactic(auto, unfolding(crate::specs::Behind::behind, object_rules::specs::Instructions::numbers, object_rules::specs::Instructions::with_operands))]
fn leave(input: &mut FileCursor<'_>) -> Result<Instruction, Stopped>
    ensures { Reads ((behind (2 ∷ 4 ∷ []) 40).read input.old.rest.now) result input.new.rest.now }
{
    let arms = input.u16()?;
    let target = input.u32()?;
    Ok(Instruction::Leave { arms, target })
}

// The instruction with this number, behind it.
fn numbered(
    input: &mut FileCursor<'_>,
    number: u8,
    operands: Operands,
) -> Result<Instruction, Stopped>
    requires there { IsNumber number }
    requires sizes { sizes_in operands ≡ form.sizes_of number }
    ensures { Reads ((behind (form.sizes_of number) number).read input.old.rest.now) result input.new.rest.now }
{
    match operands {
        Operands::Plain => with_none(input, number),
        Operands::Word => with_word(input, number),
        Operands::Words => with_words(input, number),
        Operands::ThreeWords => with_three(input, number),
        Operands::Number => with_number(input, number),
        Operands::Byte => raise_host(input),
        Operands::WordAndNumber => leave(input),
    }
}

/// An instruction where so many bytes of the code are left.
pub(crate) fn instruction(input: &mut FileCursor<'_>, left: u32) -> Result<Instruction, Stopped>
    ensures read { Reads ((form.instruction left).read input.old.rest.now) result input.new.rest.now }
    ensures size { IfOk result (λ x. (0 < bytes_of x) × (bytes_of x ≤ left)) }
{
    let number = match opcode(input, left) {
        Ok(number) => number,
        Err(why) => return Err(why),
    };
    numbered(input, number, Operands::of(number))
}
