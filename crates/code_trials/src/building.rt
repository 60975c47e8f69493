//! Codes of modules, written short.

use code_forms::{
    Arm, Arms, BadCode, CatchTable, CodeEntries, CodeEntry, CodeKind, CodeLink, CodeLinks,
    CodeProcedure, CodeProcedures, CodeSignal, CodeSignals, Instruction, Label, Labels, ModuleCode,
    Phrase, ValidCode, validate,
};
use mesa_base::{Bytes, List, Name, OutOfMemory, Texts};
use std::alloc::Global;
use std::test::Fail;

/// An arm with its labels, slot, words, start and end.
#[derive(Clone, Copy)]
pub struct Handler<'a> {
    pub labels: &'a [Label],
    pub slot: u16,
    pub words: u16,
    pub start: u32,
    pub end: u32,
}

/// A phrase with its range and arms.
#[derive(Clone, Copy)]
pub struct Catch<'a> {
    pub from: u32,
    pub to: u32,
    pub arms: &'a [Handler<'a>],
}

/// An arm for any signal, without words.
pub fn any<'a>(start: u32, end: u32) -> Handler<'a> {
    Handler {
        labels: &[Label::Any],
        slot: 0,
        words: 0,
        start,
        end,
    }
}

pub fn named(alloc: Global) -> Result<Name, Fail> {
    match Name::new(alloc, b"M")? {
        Some(name) => Ok(name),
        None => Err(Fail::new("no name")),
    }
}

/// Instructions one behind the other, with a number beside each that is no depth of theirs.
pub fn placed(alloc: Global, code: &[Instruction]) -> Result<CodeEntries, OutOfMemory> {
    let mut entries = List::new(alloc);
    let mut at: u32 = 0;
    for instruction in code {
        entries.push(CodeEntry {
            at,
            depth: 77,
            instruction: *instruction,
        })?;
        at = at.saturating_add(instruction.bytes());
    }
    Ok(entries)
}

fn arms_of(alloc: Global, handlers: &[Handler<'_>]) -> Result<Arms, OutOfMemory> {
    let mut arms = List::new(alloc);
    for handler in handlers {
        let labels: Labels = List::from_slice(alloc, handler.labels)?;
        arms.push(Arm {
            labels,
            slot: handler.slot,
            words: handler.words,
            start: handler.start,
            end: handler.end,
        })?;
    }
    Ok(arms)
}

pub fn phrases_of(alloc: Global, catches: &[Catch<'_>]) -> Result<CatchTable, OutOfMemory> {
    let mut phrases = List::new(alloc);
    for catch in catches {
        phrases.push(Phrase {
            from: catch.from,
            to: catch.to,
            arms: arms_of(alloc, catch.arms)?,
        })?;
    }
    Ok(phrases)
}

/// A procedure's words, instructions and phrases.
#[derive(Clone, Copy)]
pub struct Own<'a> {
    pub args: u16,
    pub results: u16,
    pub frame: u16,
    pub depth: u32,
    pub code: &'a [Instruction],
    pub catches: &'a [Catch<'a>],
}

pub fn procedure_of(alloc: Global, own: &Own<'_>) -> Result<CodeProcedure, Fail> {
    Ok(CodeProcedure {
        name: named(alloc)?,
        args: own.args,
        results: own.results,
        frame: own.frame,
        depth: own.depth,
        code: placed(alloc, own.code)?,
        phrases: phrases_of(alloc, own.catches)?,
    })
}

pub fn procedures_of(alloc: Global, all: &[Own<'_>]) -> Result<CodeProcedures, Fail> {
    let mut procedures = CodeProcedures::new(alloc);
    for own in all {
        procedures.push(procedure_of(alloc, own)?)?;
    }
    Ok(procedures)
}

/// A signal of the kind with the words of its arguments and results.
pub fn signal_of(
    alloc: Global,
    kind: CodeKind,
    args: u16,
    results: u16,
) -> Result<CodeSignal, Fail> {
    Ok(CodeSignal {
        kind,
        name: named(alloc)?,
        args,
        results,
    })
}

/// A signal that takes 1 word and gives 2, and an error that takes 2.
pub fn signals_of(alloc: Global) -> Result<CodeSignals, Fail> {
    let mut signals = List::new(alloc);
    signals.push(signal_of(alloc, CodeKind::Signal, 1, 2)?)?;
    signals.push(signal_of(alloc, CodeKind::Error, 2, 0)?)?;
    Ok(signals)
}

fn link_of(kind: CodeKind, args: u64, results: u64) -> CodeLink {
    CodeLink {
        kind,
        args,
        results,
    }
}

/// A procedure that takes 1 word and gives 3, a signal that takes 2 and gives 1, and an error that takes 1.
pub fn links_of(alloc: Global) -> Result<CodeLinks, OutOfMemory> {
    List::from_slice(
        alloc,
        &[
            link_of(CodeKind::Procedure, 1, 3),
            link_of(CodeKind::Signal, 2, 1),
            link_of(CodeKind::Error, 1, 0),
        ],
    )
}

/// So many strings of one byte.
pub fn strings_of(alloc: Global, count: usize) -> Result<Texts, OutOfMemory> {
    let mut strings: Texts = List::new(alloc);
    for _ in 0..count {
        let string: Bytes = List::from_slice(alloc, b"s")?;
        strings.push(string)?;
    }
    Ok(strings)
}

/// A module of 4 globals, 2 strings, those signals and links, and these procedures.
pub fn module_with(alloc: Global, procedures: CodeProcedures) -> Result<Option<ModuleCode>, Fail> {
    Ok(ModuleCode::new(
        named(alloc)?,
        4,
        signals_of(alloc)?,
        strings_of(alloc, 2)?,
        links_of(alloc)?,
        procedures,
    ))
}

/// What `validate` makes of these procedures. It fails where they are out of range.
pub fn judged(alloc: Global, all: &[Own<'_>]) -> Result<Result<ValidCode, BadCode>, Fail> {
    match module_with(alloc, procedures_of(alloc, all)?)? {
        Some(code) => Ok(validate(code)),
        None => Err(Fail::new("out of range")),
    }
}
