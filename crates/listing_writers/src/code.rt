//! Instructions, procedures, and the code of a module.
ghost use Rattle.std.specs.Prelude.{◌≡◌, ◌++◌, OnOk};
ghost use Rattle.listing_rules.specs.Code as spec;
ghost use Rattle.listing_writers.specs.Operands.{texts_of};

use crate::lines::{Word, put_line};
use crate::texts::{Listed, put_each};
use code_forms::{CodeEntry, CodeProcedure, CodeSignal, Instruction, ModuleCode};
use mesa_base::{Bytes, OutOfMemory};

/// The operands of an instruction.
#[derive(Clone, Copy)]
enum Operands {
    Nothing,
    One(u64),
    Two(u64, u64),
    Three(u64, u64, u64),
    Target(u32),
    Leaving(u64, u32),
}

#[tactic(auto, unfolding(listing_rules::specs::Code::operand_texts))]
fn operands_of(instruction: Instruction) -> Operands
    ensures { spec.operand_texts instruction ≡ texts_of result }
{
    match instruction {
        Instruction::Lit { word } => Operands::One(word as u64),
        Instruction::Str { literal } => Operands::One(literal as u64),
        Instruction::LoadL { slot, words } => Operands::Two(slot as u64, words as u64),
        Instruction::StoreL { slot, words } => Operands::Two(slot as u64, words as u64),
        Instruction::LoadG { slot, words } => Operands::Two(slot as u64, words as u64),
        Instruction::StoreG { slot, words } => Operands::Two(slot as u64, words as u64),
        Instruction::LoadLX {
            slot,
            extent,
            words,
        } => Operands::Three(slot as u64, extent as u64, words as u64),
        Instruction::StoreLX {
            slot,
            extent,
            words,
        } => Operands::Three(slot as u64, extent as u64, words as u64),
        Instruction::LoadGX {
            slot,
            extent,
            words,
        } => Operands::Three(slot as u64, extent as u64, words as u64),
        Instruction::StoreGX {
            slot,
            extent,
            words,
        } => Operands::Three(slot as u64, extent as u64, words as u64),
        Instruction::Index { count, size } => Operands::Two(count as u64, size as u64),
        Instruction::CheckI { least, most } => Operands::Two(least as u64, most as u64),
        Instruction::CheckC { least, most } => Operands::Two(least as u64, most as u64),
        Instruction::Jump { target } => Operands::Target(target),
        Instruction::JumpIf { target } => Operands::Target(target),
        Instruction::JumpIfNot { target } => Operands::Target(target),
        Instruction::JumpBack { target } => Operands::Target(target),
        Instruction::Call { procedure } => Operands::One(procedure as u64),
        Instruction::CallLink { link } => Operands::One(link as u64),
        Instruction::Raise { signal } => Operands::One(signal as u64),
        Instruction::RaiseLink { link } => Operands::One(link as u64),
        Instruction::RaiseHost { fault } => Operands::One(fault as u64),
        Instruction::Resume { words } => Operands::One(words as u64),
        Instruction::Leave { arms, target } => Operands::Leaving(arms as u64, target),
        Instruction::LeaveReturn { arms } => Operands::One(arms as u64),
        Instruction::Pop { words } => Operands::One(words as u64),
        Instruction::Roll { words, over } => Operands::Two(words as u64, over as u64),
        Instruction::ZeroL { slot, words } => Operands::Two(slot as u64, words as u64),
        Instruction::ZeroG { slot, words } => Operands::Two(slot as u64, words as u64),
        Instruction::Add
        | Instruction::Sub
        | Instruction::Mul
        | Instruction::Neg
        | Instruction::DivI
        | Instruction::ModI
        | Instruction::DivC
        | Instruction::ModC
        | Instruction::Eq
        | Instruction::LessI
        | Instruction::LessC
        | Instruction::Not
        | Instruction::StrLen
        | Instruction::StrAt
        | Instruction::Return
        | Instruction::ArmEnd
        | Instruction::AddD
        | Instruction::SubD
        | Instruction::MulD
        | Instruction::NegD
        | Instruction::DivDI
        | Instruction::ModDI
        | Instruction::DivDC
        | Instruction::ModDC
        | Instruction::EqD
        | Instruction::LessDI
        | Instruction::LessDC
        | Instruction::WidenI
        | Instruction::WidenC
        | Instruction::NarrowI
        | Instruction::NarrowC
        | Instruction::CheckD => Operands::Nothing,
    }
}

impl Listed for CodeEntry {
    ghost use Rattle.listing_rules.specs.Code.{entry_line};

    ghost text = { entry_line };

    fn put(&self, out: &mut Bytes) -> Result<(), OutOfMemory> {
        let at = Word::Offset(self.at);
        let name = Word::Operation(self.instruction);
        match operands_of(self.instruction) {
            Operands::Nothing => put_line(out, &at, &[name]),
            Operands::One(number) => put_line(out, &at, &[name, Word::Number(number)]),
            Operands::Two(first, second) => put_line(
                out,
                &at,
                &[name, Word::Number(first), Word::Number(second)],
            ),
            Operands::Three(first, second, third) => put_line(
                out,
                &at,
                &[
                    name,
                    Word::Number(first),
                    Word::Number(second),
                    Word::Number(third),
                ],
            ),
            Operands::Target(target) => put_line(out, &at, &[name, Word::Offset(target)]),
            Operands::Leaving(arms, target) => put_line(
                out,
                &at,
                &[name, Word::Number(arms), Word::Offset(target)],
            ),
        }
    }
}

impl Listed for CodeSignal {
    ghost use Rattle.listing_rules.specs.Code.{signal_line};

    ghost text = { signal_line };

    fn put(&self, out: &mut Bytes) -> Result<(), OutOfMemory> {
        put_line(
            out,
            &Word::SignalKind(self.kind),
            &[
                Word::Name(&self.name),
                Word::Number(self.args as u64),
                Word::Number(self.results as u64),
            ],
        )
    }
}

impl Listed for Bytes {
    ghost use Rattle.listing_rules.specs.Code.{string_line};

    ghost text = { string_line };

    fn put(&self, out: &mut Bytes) -> Result<(), OutOfMemory> {
        put_line(out, &Word::Text("STRING"), &[Word::LengthOf(self)])
    }
}

fn put_head(out: &mut Bytes, procedure: &CodeProcedure) -> Result<(), OutOfMemory>
    ensures { OnOk result (out.new ≡ out.old ++ spec.procedure_head procedure.now) }
{
    put_line(
        out,
        &Word::Text("CODE"),
        &[
            Word::Name(&procedure.name),
            Word::Number(procedure.args as u64),
            Word::Number(procedure.results as u64),
            Word::Number(procedure.frame as u64),
            Word::Number(procedure.depth as u64),
        ],
    )
}

impl Listed for CodeProcedure {
    ghost use Rattle.listing_rules.specs.Code.{procedure_lines};

    ghost text = { procedure_lines };

    fn put(&self, out: &mut Bytes) -> Result<(), OutOfMemory> {
        put_head(out, self)?;
        put_each(out, self.code.as_slice())?;
        put_each(out, self.phrases.as_slice())
    }
}

fn put_globals(out: &mut Bytes, words: u16) -> Result<(), OutOfMemory>
    ensures { OnOk result (out.new ≡ out.old ++ spec.globals_line words) }
{
    put_line(out, &Word::Text("GLOBALS"), &[Word::Number(words as u64)])
}

/// The globals, signals, strings and procedures of a module.
pub(crate) fn put_code(out: &mut Bytes, code: &ModuleCode) -> Result<(), OutOfMemory>
    ensures { OnOk result (out.new ≡ out.old ++ spec.code_lines code.now) }
{
    put_globals(out, code.global_words)?;
    put_each(out, code.signals.as_slice())?;
    put_each(out, code.strings.as_slice())?;
    put_each(out, code.procedures.as_slice())
}
