//! The edges of the ranges that the code of a module keeps.

use crate::building::{
    Catch, Handler, Own, links_of, module_with, named, phrases_of, procedures_of, signal_of,
    signals_of, strings_of,
};
use code_forms::limits::{FRAME_WORDS, STACK_WORDS};
use code_forms::{
    CodeEntry, CodeKind, CodeLink, CodeProcedure, CodeProcedures, CodeSignals, Instruction, Label,
    ModuleCode, validate,
};
use mesa_base::limits::{DISTINCT_STRINGS, STRING_BYTES};
use mesa_base::{Bytes, List, Texts};
use std::alloc::Global;
use std::test::Fail;

const BODY: Own<'static> = Own {
    args: 0,
    results: 0,
    frame: 0,
    depth: 0,
    code: &[Instruction::Return],
    catches: &[],
};

fn fits(alloc: Global, own: Own<'_>) -> Result<bool, Fail> {
    let procedures = procedures_of(alloc, &[BODY, own])?;
    Ok(module_with(alloc, procedures)?.is_some())
}

/// A procedure of these words.
fn words(args: u16, results: u16, frame: u16, depth: u32) -> Own<'static> {
    Own {
        args,
        results,
        frame,
        depth,
        code: &[Instruction::Return],
        catches: &[],
    }
}

/// A procedure with these phrases.
fn words_with<'a>(catches: &'a [Catch<'a>]) -> Own<'a> {
    Own {
        args: 0,
        results: 0,
        frame: 0,
        depth: 0,
        code: &[Instruction::Return],
        catches,
    }
}

#[test]
fn words_of_procedures(rt: HostRuntime) -> Result<(), Fail> {
    let alloc = rt.alloc();
    assert!(rt; fits(alloc, words(0, 0, FRAME_WORDS, STACK_WORDS))?);
    assert!(rt; !fits(alloc, words(0, 0, 2_049, 0))? && !fits(alloc, words(0, 0, 0, 65_536))?);
    assert!(rt; fits(alloc, words(1_024, 1_024, 2_048, 0))?);
    assert!(rt; !fits(alloc, words(1_024, 1_024, 2_047, 0))?);
    assert!(rt; !fits(alloc, words(u16::MAX, u16::MAX, 2_048, 0))?);
    Ok(())
}

fn fits_all(alloc: Global, all: &[Own<'_>]) -> Result<bool, Fail> {
    let procedures = procedures_of(alloc, all)?;
    Ok(module_with(alloc, procedures)?.is_some())
}

#[test]
fn first_procedure(rt: HostRuntime) -> Result<(), Fail> {
    let alloc = rt.alloc();
    assert!(rt; fits_all(alloc, &[BODY])? && !fits_all(alloc, &[])?);
    assert!(rt; !fits_all(alloc, &[words(1, 0, 2, 0), BODY])?);
    assert!(rt; !fits_all(alloc, &[words(0, 1, 2, 0), BODY])?);
    Ok(())
}

/// A procedure of instructions at these offsets.
fn at_offsets(alloc: Global, offsets: &[u32]) -> Result<CodeProcedures, Fail> {
    let mut code = List::new(alloc);
    for at in offsets {
        code.push(CodeEntry {
            at: *at,
            depth: 0,
            instruction: Instruction::Return,
        })?;
    }
    let mut procedures = CodeProcedures::new(alloc);
    procedures.push(CodeProcedure {
        name: named(alloc)?,
        args: 0,
        results: 0,
        frame: 0,
        depth: 0,
        code,
        phrases: phrases_of(alloc, &[])?,
    })?;
    Ok(procedures)
}

fn fits_at(alloc: Global, offsets: &[u32]) -> Result<bool, Fail> {
    let procedures = at_offsets(alloc, offsets)?;
    Ok(module_with(alloc, procedures)?.is_some())
}

#[test]
fn offsets(rt: HostRuntime) -> Result<(), Fail> {
    let alloc = rt.alloc();
    assert!(rt; fits_at(alloc, &[0])? && fits_at(alloc, &[0, 1, 2])?);
    assert!(rt; !fits_at(alloc, &[])? && !fits_at(alloc, &[1])? && !fits_at(alloc, &[0, 2])?);
    assert!(rt; !fits_at(alloc, &[0, 1, 1])? && !fits_at(alloc, &[u32::MAX])?);
    Ok(())
}

/// A procedure with one phrase with one arm of these labels.
fn fits_labelled(alloc: Global, labels: &[Label]) -> Result<bool, Fail> {
    let arms = [Handler {
        labels,
        slot: 9,
        words: 9,
        start: 2,
        end: 1,
    }];
    let catches = [Catch {
        from: 9,
        to: 3,
        arms: &arms,
    }];
    fits(alloc, words_with(&catches))
}

#[test]
fn labels(rt: HostRuntime) -> Result<(), Fail> {
    let alloc = rt.alloc();
    assert!(rt; fits_labelled(alloc, &[Label::Own(1)])? && !fits_labelled(alloc, &[])?);
    assert!(rt; fits_labelled(alloc, &[Label::Link(1), Label::Link(2)])?);
    assert!(rt;
        fits_labelled(
            alloc,
            &[Label::Unwind, Label::BoundsFault, Label::ZeroDivisor]
        )?
    );
    assert!(rt; !fits_labelled(alloc, &[Label::Any, Label::Own(2)])?);
    assert!(rt;
        !fits_labelled(alloc, &[Label::Link(0)])? && !fits_labelled(alloc, &[Label::Link(3)])?
    );
    assert!(rt; !fits_labelled(alloc, &[Label::Own(u32::MAX)])?);
    let catches = [Catch {
        from: 0,
        to: 1,
        arms: &[],
    }];
    assert!(rt; !fits(alloc, words_with(&catches))?);
    Ok(())
}

fn with_signals(alloc: Global, signals: CodeSignals, globals: u16) -> Result<bool, Fail> {
    let made = ModuleCode::new(
        named(alloc)?,
        globals,
        signals,
        strings_of(alloc, 0)?,
        links_of(alloc)?,
        procedures_of(alloc, &[BODY])?,
    );
    Ok(made.is_some())
}

fn fits_signal(alloc: Global, kind: CodeKind, results: u16) -> Result<bool, Fail> {
    let signals = List::of(alloc, signal_of(alloc, kind, 3, results)?)?;
    with_signals(alloc, signals, 0)
}

#[test]
fn signals_and_globals(rt: HostRuntime) -> Result<(), Fail> {
    let alloc = rt.alloc();
    assert!(rt;
        fits_signal(alloc, CodeKind::Signal, 9)? && fits_signal(alloc, CodeKind::Error, 0)?
    );
    assert!(rt;
        !fits_signal(alloc, CodeKind::Procedure, 0)? && !fits_signal(alloc, CodeKind::Error, 1)?
    );
    assert!(rt; with_signals(alloc, signals_of(alloc)?, 16_384)?);
    assert!(rt; !with_signals(alloc, signals_of(alloc)?, 16_385)?);
    Ok(())
}

fn with_strings(alloc: Global, strings: Texts, link: CodeLink) -> Result<bool, Fail> {
    let made = ModuleCode::new(
        named(alloc)?,
        0,
        List::new(alloc),
        strings,
        List::of(alloc, link)?,
        procedures_of(alloc, &[BODY])?,
    );
    Ok(made.is_some())
}

fn link(kind: CodeKind, results: u64) -> CodeLink {
    CodeLink {
        kind,
        args: u64::MAX,
        results,
    }
}

fn fits_strings(alloc: Global, count: usize) -> Result<bool, Fail> {
    let strings = strings_of(alloc, count)?;
    with_strings(alloc, strings, link(CodeKind::Procedure, u64::MAX))
}

fn fits_string(alloc: Global, length: usize) -> Result<bool, Fail> {
    let mut string: Bytes = List::new(alloc);
    for _ in 0..length {
        string.push(7)?;
    }
    let strings = List::of(alloc, string)?;
    with_strings(alloc, strings, link(CodeKind::Procedure, u64::MAX))
}

fn fits_link(alloc: Global, kind: CodeKind, results: u64) -> Result<bool, Fail> {
    let strings = strings_of(alloc, 0)?;
    with_strings(alloc, strings, link(kind, results))
}

#[test]
fn strings_and_links(rt: HostRuntime) -> Result<(), Fail> {
    let alloc = rt.alloc();
    assert!(rt; fits_strings(alloc, DISTINCT_STRINGS)? && !fits_strings(alloc, 65_536)?);
    assert!(rt; fits_string(alloc, STRING_BYTES)? && !fits_string(alloc, 32_768)?);
    assert!(rt; fits_link(alloc, CodeKind::Signal, 1)? && fits_link(alloc, CodeKind::Error, 0)?);
    assert!(rt; !fits_link(alloc, CodeKind::Error, 1)?);
    Ok(())
}

fn has_its_parts(code: &ModuleCode) -> bool {
    let few = code.global_words == 4 && code.signals.len() == 2 && code.strings.len() == 2;
    few && code.links.len() == 3
        && code.procedures.len() == 2
        && code.name.bytes() == b"M".as_slice()
}

/// The parts stand in the module as they were, and in the valid code.
fn keeps_its_parts(alloc: Global) -> Result<bool, Fail> {
    let procedures = procedures_of(alloc, &[BODY, BODY])?;
    let code = module_with(alloc, procedures)?.ok_or("out of range")?;
    let valid = validate(code).ok().ok_or("not valid")?;
    Ok(has_its_parts(&valid.into_code()))
}

#[test]
fn parts(rt: HostRuntime) -> Result<(), Fail> {
    assert!(rt; keeps_its_parts(rt.alloc())?);
    Ok(())
}
