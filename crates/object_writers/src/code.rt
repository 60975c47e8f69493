//! Instructions as bytes.
ghost use Rattle.std.specs.Prelude.{◌≡◌, ◌<◌, ◌^◌, OnOk};
ghost use Rattle.file_forms.specs.Written.{appended};
ghost use Rattle.object_writers.specs.CodeBytes.{operand_bytes, entry_bytes, code_size, code_bytes};

use crate::operands::{Operands, operands_of};
use crate::put::{Put, put_each};
use code_forms::CodeEntry;
use file_forms::FileWriter;
use mesa_base::OutOfMemory;

#[tactic(auto, using(file_forms::proofs::WrittenLaws::appended_twice, file_forms::proofs::WrittenLaws::appended_nothing))]
fn put_operands(out: &mut FileWriter, operands: Operands) -> Result<(), OutOfMemory>
    ensures { OnOk result (out.new ≡ appended out.old (operand_bytes operands)) }
{
    match operands {
        Operands::Nothing => Ok(()),
        Operands::Byte(number) => out.u8(number),
        Operands::Word(word) => out.u16(word),
        Operands::TwoWords(first, second) => {
            out.u16(first)?;
            out.u16(second)
        }
        Operands::ThreeWords(first, second, third) => {
            out.u16(first)?;
            out.u16(second)?;
            out.u16(third)
        }
        Operands::Long(number) => out.u32(number),
        Operands::WordAndLong(word, number) => {
            out.u16(word)?;
            out.u32(number)
        }
    }
}

impl Put for CodeEntry {
    ghost use Rattle.object_writers.specs.CodeBytes.{entry_bytes};

    ghost can_put = { λ entry. Unit {0} };

    ghost spelling = { entry_bytes };

    #[tactic(auto, using(file_forms::proofs::WrittenLaws::appended_twice))]
    fn put(&self, out: &mut FileWriter) -> Result<(), OutOfMemory> {
        out.u8(self.instruction.number())?;
        put_operands(out, operands_of(self.instruction))
    }
}

// The length of instructions in bytes.
fn size(code: &[CodeEntry]) -> u32
    requires { code_size code.now < 2 ^ 32 }
    ensures { result ≡ code_size code.now }
{
    let mut sum: u32 = 0;
    'entries: for entry in code {
        sum += entry.instruction.bytes();
    }
    sum
}

/// The length of code, and its instructions.
#[tactic(auto, using(file_forms::proofs::WrittenLaws::appended_twice))]
pub(crate) fn put_code(out: &mut FileWriter, code: &[CodeEntry]) -> Result<(), OutOfMemory>
    requires { code_size code.now < 2 ^ 32 }
    ensures { OnOk result (out.new ≡ appended out.old (code_bytes code.now)) }
{
    out.u32(size(code))?;
    put_each(out, code)
}
