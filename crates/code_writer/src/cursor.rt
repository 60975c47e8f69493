//! Where the next instruction stands.
ghost use Rattle.std.specs.Prelude.{◌≡◌, ◌+◌, ◌-◌, ◌<◌, ◌≤◌, ◌^◌, ◌∷◌, [], ◌++◌, IfOk, OnOk};
ghost use Rattle.code_forms.specs.Depths.{depth_after};
ghost use Rattle.code_forms.specs.Instructions.{bytes_of};
ghost use Rattle.code_forms.specs.Routine.{moves};
ghost use Rattle.code_forms.specs.declared.limits.TheConstants.{STACK_WORDS};
ghost use Rattle.code_blocks.specs.Own.{alone, bytes_in, left_of};
ghost use Rattle.code_blocks.specs.Modules.{deepest};
ghost use Rattle.code_blocks.specs.Sizes.{at_end};
ghost use Rattle.code_blocks.specs.Writing.{entry, entries};
ghost use Rattle.code_trees.specs.Plain.{mark_of};
ghost use Rattle.code_writer.specs.Cursors.{IsDepth};

use code_forms::{CodeEntries, CodeEntry, Instruction};
use code_trees::Mark;
use mesa_base::OutOfMemory;

/// Its offset, and the words on the operand stack before it. Where they are more than the stack ever has room for, no
/// instruction stands there, and the number may be another one that is too great.
#[derive(Clone, Copy)]
pub struct Cursor {
    pub at: u32,
    pub depth: u32,
}

/// The words that an instruction takes from the operand stack, and those that it then puts there.
#[derive(Clone, Copy)]
struct Exchange {
    takes: u32,
    puts: u32,
}

fn words_moved(takes: u32, puts: u32) -> Exchange
    ensures { result ≡ record { takes = takes; puts = puts } }
{
    Exchange { takes, puts }
}

/// What an instruction takes and puts by itself: a call or a raise moves the words of what it names, which its block knows.
fn moves(instruction: Instruction) -> Exchange
    ensures takes { result.takes ≡ (moves alone instruction).takes }
    ensures puts { result.puts ≡ (moves alone instruction).puts }
    ensures few { result.puts < 2 ^ 17 }
{
    match instruction {
        Instruction::Lit { .. } => words_moved(0, 1),
        Instruction::Str { .. } => words_moved(0, 2),
        Instruction::LoadL { words, .. } | Instruction::LoadG { words, .. } => words_moved(
            0,
            u32::from(words),
        ),
        Instruction::StoreL { words, .. }
        | Instruction::StoreG { words, .. }
        | Instruction::Resume { words }
        | Instruction::Pop { words } => words_moved(u32::from(words), 0),
        Instruction::LoadLX { words, .. } | Instruction::LoadGX { words, .. } => words_moved(
            1,
            u32::from(words),
        ),
        Instruction::StoreLX { words, .. } | Instruction::StoreGX { words, .. } => {
            words_moved(u32::from(words) + 1, 0)
        }
        Instruction::Index { .. }
        | Instruction::Add
        | Instruction::Sub
        | Instruction::Mul
        | Instruction::DivI
        | Instruction::ModI
        | Instruction::DivC
        | Instruction::ModC
        | Instruction::Eq
        | Instruction::LessI
        | Instruction::LessC
        | Instruction::StrLen => words_moved(2, 1),
        Instruction::Neg
        | Instruction::Not
        | Instruction::CheckI { .. }
        | Instruction::CheckC { .. } => words_moved(1, 1),
        Instruction::StrAt => words_moved(3, 1),
        Instruction::AddD
        | Instruction::SubD
        | Instruction::MulD
        | Instruction::DivDI
        | Instruction::ModDI
        | Instruction::DivDC
        | Instruction::ModDC => words_moved(4, 2),
        Instruction::EqD | Instruction::LessDI | Instruction::LessDC => words_moved(4, 1),
        Instruction::NegD | Instruction::CheckD => words_moved(2, 2),
        Instruction::WidenI | Instruction::WidenC => words_moved(1, 2),
        Instruction::NarrowI | Instruction::NarrowC => words_moved(2, 1),
        Instruction::JumpIf { .. } | Instruction::JumpIfNot { .. } => words_moved(1, 0),
        Instruction::Roll { words, over } => {
            let all = u32::from(words) + u32::from(over);
            words_moved(all, all)
        }
        Instruction::Call { .. }
        | Instruction::Raise { .. }
        | Instruction::CallLink { .. }
        | Instruction::RaiseLink { .. }
        | Instruction::Jump { .. }
        | Instruction::JumpBack { .. }
        | Instruction::Return
        | Instruction::RaiseHost { .. }
        | Instruction::ArmEnd
        | Instruction::Leave { .. }
        | Instruction::LeaveReturn { .. }
        | Instruction::ZeroL { .. }
        | Instruction::ZeroG { .. } => words_moved(0, 0),
    }
}

impl Cursor {
    /// Behind an instruction.
    fn behind(self, instruction: Instruction) -> Cursor
        requires room { self.at + bytes_of instruction < 2 ^ 32 }
        requires shallow { self.depth ≤ STACK_WORDS }
        ensures { result ≡ record { at = self.at + bytes_of instruction; depth = depth_after alone instruction self.depth } }
    {
        let moved = moves(instruction);
        let depth = self.depth.saturating_sub(moved.takes) + moved.puts;
        let at = self.at + instruction.bytes();
        Cursor { at, depth }
    }

    /// Behind a call or a raise that takes and puts so many words.
    pub fn behind_call(self, call: Instruction, takes: u32, puts: u32) -> Cursor
        requires room { self.at + bytes_of call < 2 ^ 32 }
        requires shallow { self.depth ≤ STACK_WORDS }
        ensures at { result.at ≡ self.at + bytes_of call }
        ensures depth { IsDepth result.depth (self.depth - takes + puts) }
    {
        let depth = self.depth.saturating_sub(takes).saturating_add(puts);
        let at = self.at + call.bytes();
        Cursor { at, depth }
    }

    /// Behind a part that ends at an offset.
    pub fn behind_part(self, mark: &Mark, end: u32) -> Cursor
        ensures at { result.at ≡ end }
        ensures depth { IsDepth result.depth (at_end (mark_of mark.now) self.depth) }
    {
        let depth = match mark {
            Mark::Here(words) => self.depth.saturating_add(*words),
            Mark::Statement(_) | Mark::Labels(_) => self.depth,
        };
        Cursor { at: end, depth }
    }
}

/// Puts an entry at the end, where its instruction moves no words but those that it says itself.
pub fn put(
    written: &mut CodeEntries,
    instruction: Instruction,
    from: Cursor,
) -> Result<Cursor, OutOfMemory>
    requires room { from.at + bytes_of instruction < 2 ^ 32 }
    requires shallow { from.depth ≤ STACK_WORDS }
    ensures code { OnOk result (written.new ≡ written.old ++ entry from.at from.depth instruction ∷ []) }
    ensures behind { IfOk result (λ c. c ≡ record { at = from.at + bytes_of instruction; depth = depth_after alone instruction from.depth }) }
{
    written.push(CodeEntry {
        at: from.at,
        depth: from.depth,
        instruction,
    })?;
    Ok(from.behind(instruction))
}

/// Puts the entries of own code at the end.
pub fn put_all(
    written: &mut CodeEntries,
    code: &[Instruction],
    from: Cursor,
) -> Result<Cursor, OutOfMemory>
    requires room { from.at + bytes_in code.now < 2 ^ 32 }
    requires shallow { deepest (entries code.now from.at from.depth) ≤ STACK_WORDS }
    ensures code { OnOk result (written.new ≡ written.old ++ entries code.now from.at from.depth) }
    ensures behind { IfOk result (λ c. c ≡ record { at = from.at + bytes_in code.now; depth = left_of code.now from.depth }) }
{
    let mut cursor = from;
    for instruction in code {
        cursor = put(written, *instruction, cursor)?;
    }
    Ok(cursor)
}
