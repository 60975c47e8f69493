//! What the code of a procedure may name, and how many words each instruction takes and puts.
ghost use Rattle.std.specs.Prelude.{◌≡◌};
ghost use Rattle.std.specs.Prelude.{[], map, slice_get};
ghost use Rattle.code_forms.specs.Routine.{words_of, words_there, signal_words, link_words, is_error, is_error_signal, is_error_link, moves, goes_on};
ghost use Rattle.code_forms.specs.Around.{routine_around};

use crate::instruction::Instruction;
use crate::module_code::{CodeKind, CodeLink, CodeProcedure, CodeSignal, Phrase};

/// The words that an instruction takes from the operand stack, and those that it then puts there.
#[derive(Clone, Copy)]
pub struct Moved {
    pub takes: u64,
    pub puts: u64,
}

/// What the code of a procedure may name: the rest of its module, and the sizes and phrases of the procedure.
#[derive(Drop)]
pub struct Around<'a> {
    pub globals: u16,
    pub strings: usize,
    pub signals: &'a [CodeSignal],
    pub links: &'a [CodeLink],
    pub procedures: &'a [CodeProcedure],
    pub frame: u16,
    pub room: u32,
    pub phrases: &'a [Phrase],
}

fn words_moved(takes: u64, puts: u64) -> Moved
    ensures { result ≡ record { takes = takes; puts = puts } }
{
    Moved { takes, puts }
}

fn is_error(kind: CodeKind) -> bool
    ensures { result ≡ is_error kind }
{
    matches!(kind, CodeKind::Error)
}

impl Around<'_> {
    fn procedure_words(&self, number: u32) -> Moved
        ensures { result ≡ words_there (slice_get (map words_of self.now.procedures.now) number) }
    {
        match self.procedures.get(number as usize) {
            Some(procedure) => words_moved(u64::from(procedure.args), u64::from(procedure.results)),
            None => words_moved(0, 0),
        }
    }

    fn signal_words(&self, number: u32) -> Moved
        ensures { result ≡ signal_words (slice_get self.now.signals.now number) }
    {
        match self.signals.get(number as usize) {
            Some(signal) => words_moved(u64::from(signal.args), u64::from(signal.results)),
            None => words_moved(0, 0),
        }
    }

    fn link_words(&self, number: u32) -> Moved
        ensures { result ≡ link_words (slice_get self.now.links.now number) }
    {
        match self.links.get(number as usize) {
            Some(link) => words_moved(link.args, link.results),
            None => words_moved(0, 0),
        }
    }

    /// The words that the instruction takes and puts.
    pub fn moves(&self, instruction: Instruction) -> Moved
        ensures { result ≡ moves (routine_around self.now []) instruction }
    {
        match instruction {
            Instruction::Lit { .. } => words_moved(0, 1),
            Instruction::Str { .. } => words_moved(0, 2),
            Instruction::LoadL { words, .. } | Instruction::LoadG { words, .. } => words_moved(
                0,
                u64::from(words),
            ),
            Instruction::StoreL { words, .. }
            | Instruction::StoreG { words, .. }
            | Instruction::Resume { words }
            | Instruction::Pop { words } => words_moved(u64::from(words), 0),
            Instruction::LoadLX { words, .. } | Instruction::LoadGX { words, .. } => words_moved(
                1,
                u64::from(words),
            ),
            Instruction::StoreLX { words, .. } | Instruction::StoreGX { words, .. } => {
                words_moved(u64::from(words) + 1, 0)
            }
            Instruction::Index { .. }
            | Instruction::Add
            | Instruction::Sub
            | Instruction::Mul
            | Instruction::DivI
            | Instruction::ModI
            | Instruction::DivC
            | Instruction::ModC
            | Instruction::Eq
            | Instruction::LessI
            | Instruction::LessC
            | Instruction::StrLen => words_moved(2, 1),
            Instruction::Neg
            | Instruction::Not
            | Instruction::CheckI { .. }
            | Instruction::CheckC { .. } => words_moved(1, 1),
            Instruction::StrAt => words_moved(3, 1),
            Instruction::AddD
            | Instruction::SubD
            | Instruction::MulD
            | Instruction::DivDI
            | Instruction::ModDI
            | Instruction::DivDC
            | Instruction::ModDC => words_moved(4, 2),
            Instruction::EqD | Instruction::LessDI | Instruction::LessDC => words_moved(4, 1),
            Instruction::NegD | Instruction::CheckD => words_moved(2, 2),
            Instruction::WidenI | Instruction::WidenC => words_moved(1, 2),
            Instruction::NarrowI | Instruction::NarrowC => words_moved(2, 1),
            Instruction::JumpIf { .. } | Instruction::JumpIfNot { .. } => words_moved(1, 0),
            Instruction::Call { procedure } => self.procedure_words(procedure),
            Instruction::Raise { signal } => self.signal_words(signal),
            Instruction::CallLink { link } | Instruction::RaiseLink { link } => self.link_words(
                link,
            ),
            Instruction::Roll { words, over } => {
                let all = u64::from(words) + u64::from(over);
                words_moved(all, all)
            }
            Instruction::Jump { .. }
            | Instruction::JumpBack { .. }
            | Instruction::Return
            | Instruction::RaiseHost { .. }
            | Instruction::ArmEnd
            | Instruction::Leave { .. }
            | Instruction::LeaveReturn { .. }
            | Instruction::ZeroL { .. }
            | Instruction::ZeroG { .. } => words_moved(0, 0),
        }
    }

    fn raises_error(&self, signal: u32) -> bool
        ensures { result ≡ is_error_signal (slice_get self.now.signals.now signal) }
    {
        match self.signals.get(signal as usize) {
            Some(signal) => is_error(signal.kind),
            None => false,
        }
    }

    fn links_error(&self, link: u32) -> bool
        ensures { result ≡ is_error_link (slice_get self.now.links.now link) }
    {
        match self.links.get(link as usize) {
            Some(link) => is_error(link.kind),
            None => false,
        }
    }

    /// Whether the instruction goes on to the next one.
    pub fn goes_on(&self, instruction: Instruction) -> bool
        ensures { result ≡ goes_on (routine_around self.now []) instruction }
    {
        match instruction {
            Instruction::Jump { .. }
            | Instruction::JumpBack { .. }
            | Instruction::Return
            | Instruction::RaiseHost { .. }
            | Instruction::ArmEnd
            | Instruction::Resume { .. }
            | Instruction::Leave { .. }
            | Instruction::LeaveReturn { .. } => false,
            Instruction::Raise { signal } => !self.raises_error(signal),
            Instruction::RaiseLink { link } => !self.links_error(link),
            _ => true,
        }
    }
}
