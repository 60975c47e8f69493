//! The code of a procedure.
ghost use Rattle.std.specs.Prelude.{◌≡◌, IfOk};
ghost use Rattle.code_forms.specs.Instructions.{bytes_of};
ghost use Rattle.file_forms.specs.Reads.{ReadsAs};
ghost use Rattle.object_rules.specs.Filling.{filling};
ghost use Rattle.object_rules.specs.Instructions.{instruction};
ghost use Rattle.object_rules.specs.ModuleForms as form;
ghost use Rattle.object_rules.specs.Parts.{instructions, entries_from};

use crate::instructions::instruction;
use code_forms::{CodeEntries, CodeEntry};
use file_forms::{FileCursor, Stopped};
use mesa_base::List;
use std::alloc::Global;

// Instructions that fill so many bytes.
fn entries(alloc: Global, input: &mut FileCursor<'_>, count: u32) -> Result<CodeEntries, Stopped>
    ensures read { ReadsAs instructions ((filling bytes_of instruction count).read input.old.rest.now) result input.new.rest.now }
    ensures order { IfOk result (λ all. all ≡ entries_from 0 (instructions all)) }
{
    let mut all = List::new(alloc);
    let mut left = count;
    'entries: while left > 0 {
        let instruction = match instruction(input, left) {
            Ok(instruction) => instruction,
            Err(why) => return Err(why),
        };
        all.push(CodeEntry {
            at: count - left,
            depth: 0,
            instruction,
        })?;
        left -= instruction.bytes();
    }
    Ok(all)
}

/// The code of a procedure, behind its length in bytes. Length: it has none; Opcode: an instruction is none, or has more
/// bytes than are left.
#[tactic(auto, unfolding(object_rules::specs::ModuleForms::code))]
pub(crate) fn code(alloc: Global, input: &mut FileCursor<'_>) -> Result<CodeEntries, Stopped>
    ensures read { ReadsAs instructions (form.code.read input.old.rest.now) result input.new.rest.now }
    ensures order { IfOk result (λ all. all ≡ entries_from 0 (instructions all)) }
{
    let count = input.count_from(1)?;
    entries(alloc, input, count)
}
