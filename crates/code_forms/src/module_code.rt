//! The code of a module and its parts: signals, links, procedures, phrases, arms and labels.
ghost use Rattle.code_forms.specs.Ranges.{KeepsRanges};

use crate::instruction::Instruction;
use crate::procedures::CodeProcedures;
use mesa_base::{List, Name, Texts};

/// What a link or a signal's entry stands for.
#[derive(Clone, Copy)]
pub enum CodeKind {
    Procedure,
    Signal,
    Error,
}

/// A signal or error of the module, with the words of its arguments and results.
#[derive(Drop)]
pub struct CodeSignal {
    pub kind: CodeKind,
    pub name: Name,
    pub args: u16,
    pub results: u16,
}

/// An imported item, with the words of its arguments and results.
#[derive(Clone, Copy)]
pub struct CodeLink {
    pub kind: CodeKind,
    pub args: u64,
    pub results: u64,
}

/// An instruction with its offset in bytes, and the words on the operand stack before it, which `validate` fills.
#[derive(Clone, Copy)]
pub struct CodeEntry {
    pub at: u32,
    pub depth: u32,
    pub instruction: Instruction,
}

/// What an arm is for: a signal of the module, an imported one, a predeclared one, any, or the passing of a jump.
#[derive(Clone, Copy)]
pub enum Label {
    Any,
    Unwind,
    Own(u32),
    Link(u32),
    BoundsFault,
    ZeroDivisor,
}

/// An arm: its labels, the slot and the number of its parameters' words, and its region of the code.
#[derive(Drop)]
pub struct Arm {
    pub labels: Labels,
    pub slot: u16,
    pub words: u16,
    pub start: u32,
    pub end: u32,
}

/// A catch phrase: enabled from one offset up to another, with its arms.
#[derive(Drop)]
pub struct Phrase {
    pub from: u32,
    pub to: u32,
    pub arms: Arms,
}

/// A procedure: the words of its arguments, results and frame, the most words that its operand stack may have, its
/// instructions in order of offset, and its phrases.
#[derive(Drop)]
pub struct CodeProcedure {
    pub name: Name,
    pub args: u16,
    pub results: u16,
    pub frame: u16,
    pub depth: u32,
    pub code: CodeEntries,
    pub phrases: CatchTable,
}

/// The code of a module. Procedure 0 is its body.
#[derive(Drop)]
pub struct ModuleCode {
    pub name: Name,
    pub global_words: u16,
    pub signals: CodeSignals,
    pub strings: Texts,
    pub links: CodeLinks,
    pub procedures: CodeProcedures,
    /// Counts and sizes are in range, as they are of each module that a file holds.
    pub ghost ranges: { ∥ KeepsRanges global_words signals strings links procedures ∥₁ },
}

/// The labels of an arm.
pub type Labels = List<Label>;

/// The arms of a phrase.
pub type Arms = List<Arm>;

/// The phrases of a procedure.
pub type CatchTable = List<Phrase>;

/// The instructions of a procedure, in order of offset.
pub type CodeEntries = List<CodeEntry>;

/// The signals and errors of a module.
pub type CodeSignals = List<CodeSignal>;

/// The links of a module: its imported items that are used.
pub type CodeLinks = List<CodeLink>;
