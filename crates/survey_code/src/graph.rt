//! The graph of a procedure: to which of its instructions and phrases each of them leads.

ghost use Rattle.std.specs.Prelude.{◌≡◌, ℕ, ◌+◌, ◌<◌, ◌++◌, ◌^◌, Some, None, length, slice_get, IfOk, OnOk, if◌then◌else◌, option_map};
ghost use Rattle.code_forms.specs.declared.module_code.CodeProcedure.{CodeProcedure as Procedure};
ghost use Rattle.code_forms.specs.Ranges.{InOrder};
ghost use Rattle.code_forms.specs.Routine.{goes_on, is_error, is_error_link, is_error_signal, routine};
ghost use Rattle.survey_rules.specs.Escapes.{position_of, position_beyond};
ghost use Rattle.survey_code.specs.Around.{AreBeyond, ArePositions};
ghost use Rattle.survey_code.specs.Leads.{AreEntryRows, ArePhraseRows, AreStarts, EntryLeads, IsGoal, IsGraphOf, Lists, PhraseLeads, goal_of, listed};

use crate::ending::entries_before;
use crate::reaching::Graph;
use code_forms::{Arm, CodeEntry, CodeKind, CodeProcedure, Instruction, ModuleCode};
use mesa_base::{List, OutOfMemory};
use std::alloc::Global;

/// The listed to which one leads.
pub type Row = List<usize>;

fn is_error(kind: CodeKind) -> bool
    ensures { result ≡ is_error kind }
{
    matches!(kind, CodeKind::Error)
}

fn raises_error(code: &ModuleCode, signal: u32) -> bool
    ensures { result ≡ is_error_signal (slice_get code.now.signals signal) }
{
    match code.signals.get(signal as usize) {
        Some(signal) => is_error(signal.kind),
        None => false,
    }
}

fn links_error(code: &ModuleCode, link: u32) -> bool
    ensures { result ≡ is_error_link (slice_get code.now.links link) }
{
    match code.links.get(link as usize) {
        Some(link) => is_error(link.kind),
        None => false,
    }
}

fn goes_on(code: &ModuleCode, instruction: Instruction) -> bool
    ensures { (p : Procedure) → result ≡ goes_on (routine code.now p) instruction }
{
    match instruction {
        Instruction::Jump { .. }
        | Instruction::JumpBack { .. }
        | Instruction::Return
        | Instruction::RaiseHost { .. }
        | Instruction::ArmEnd
        | Instruction::Resume { .. }
        | Instruction::Leave { .. }
        | Instruction::LeaveReturn { .. } => false,
        Instruction::Raise { signal } => !raises_error(code, signal),
        Instruction::RaiseLink { link } => !links_error(code, link),
        _ => true,
    }
}

fn goal_of(instruction: Instruction) -> Option<u32>
    ensures { result ≡ goal_of instruction }
{
    match instruction {
        Instruction::Jump { target }
        | Instruction::JumpIf { target }
        | Instruction::JumpIfNot { target }
        | Instruction::JumpBack { target }
        | Instruction::Leave { target, .. } => Some(target),
        _ => None,
    }
}

fn add(row: &mut Row, node: Option<usize>) -> Result<(), OutOfMemory>
    ensures { OnOk result (row.new ≡ row.old ++ listed node) }
{
    if let Some(node) = node {
        row.push(node)?;
    }
    Ok(())
}

fn ahead_of(code: &ModuleCode, number: usize, instruction: Instruction) -> Option<usize>
    requires { number < 2 ^ 32 }
    ensures { (p : Procedure) → result ≡ (if goes_on (routine code.now p) instruction then Some (number + 1) else None) }
{
    if goes_on(code, instruction) {
        return Some(number + 1);
    }
    None
}

fn jump_of(code: &[CodeEntry], instruction: Instruction) -> Option<usize>
    requires { InOrder code.now }
    ensures { IsGoal code.now (goal_of instruction) result }
{
    match goal_of(instruction) {
        Some(target) => Some(entries_before(code, target)),
        None => None,
    }
}

// The node of a phrase, behind those of so many instructions.
fn phrase_node(count: usize, phrase: Option<u32>) -> Option<usize>
    requires { count < 2 ^ 32 }
    ensures { result ≡ option_map (λ n. count + n) phrase }
{
    match phrase {
        Some(phrase) => Some(count + phrase as usize),
        None => None,
    }
}

fn entry_row(
    alloc: Global,
    code: &ModuleCode,
    procedure: &CodeProcedure,
    number: usize,
    entry: CodeEntry,
    position: Option<u32>,
) -> Result<Row, OutOfMemory>
    requires order { InOrder procedure.now.code }
    requires within { number < length procedure.now.code }
    requires position { position ≡ position_of procedure.now entry.at }
    ensures { IfOk result (λ row. Lists (EntryLeads code.now procedure.now number entry.at entry.instruction) row) }
{
    let entries = procedure.code.as_slice();
    let mut row = List::new(alloc);
    add(&mut row, ahead_of(code, number, entry.instruction))?;
    add(&mut row, jump_of(entries, entry.instruction))?;
    add(&mut row, phrase_node(entries.len(), position))?;
    Ok(row)
}

fn arm_nodes(alloc: Global, code: &[CodeEntry], arms: &[Arm]) -> Result<Row, OutOfMemory>
    requires { InOrder code.now }
    ensures { IfOk result (λ row. AreStarts code.now arms.now row) }
{
    let mut row = List::new(alloc);
    for arm in arms {
        row.push(entries_before(code, arm.start))?;
    }
    Ok(row)
}

fn phrase_row(
    alloc: Global,
    procedure: &CodeProcedure,
    arms: &[Arm],
    beyond: Option<u32>,
) -> Result<Row, OutOfMemory>
    requires { InOrder procedure.now.code }
    ensures { IfOk result (λ row. (n : ℕ) → beyond ≡ position_beyond procedure.now n → Lists (PhraseLeads procedure.now n arms.now) row) }
{
    let entries = procedure.code.as_slice();
    let mut row = arm_nodes(alloc, entries, arms)?;
    add(&mut row, phrase_node(entries.len(), beyond))?;
    Ok(row)
}

fn entry_rows(
    alloc: Global,
    code: &ModuleCode,
    procedure: &CodeProcedure,
    positions: &[Option<u32>],
) -> Result<Graph, OutOfMemory>
    requires order { InOrder procedure.now.code }
    requires many { length positions.now ≡ length procedure.now.code }
    requires positions { ArePositions procedure.now positions.now }
    ensures { IfOk result (λ rows. AreEntryRows code.now procedure.now rows) }
{
    let entries = procedure.code.as_slice();
    let mut rows = List::new(alloc);
    for number in 0..entries.len() {
        let row = entry_row(
            alloc,
            code,
            procedure,
            number,
            entries[number],
            positions[number],
        )?;
        rows.push(row)?;
    }
    Ok(rows)
}

fn phrase_rows(
    alloc: Global,
    procedure: &CodeProcedure,
    beyonds: &[Option<u32>],
) -> Result<Graph, OutOfMemory>
    requires order { InOrder procedure.now.code }
    requires many { length beyonds.now ≡ length procedure.now.phrases }
    requires beyonds { AreBeyond procedure.now.phrases beyonds.now }
    ensures { IfOk result (λ rows. ArePhraseRows procedure.now rows) }
{
    let mut rows = List::new(alloc);
    for number in 0..procedure.phrases.len() {
        let arms = procedure.phrases.as_slice()[number].arms.as_slice();
        let row = phrase_row(alloc, procedure, arms, beyonds[number])?;
        rows.push(row)?;
    }
    Ok(rows)
}

/// The graph of a procedure: first its instructions, and then its phrases.
pub fn graph_of(
    alloc: Global,
    code: &ModuleCode,
    procedure: &CodeProcedure,
    positions: &[Option<u32>],
    beyonds: &[Option<u32>],
) -> Result<Graph, OutOfMemory>
    requires order { InOrder procedure.now.code }
    requires many_positions { length positions.now ≡ length procedure.now.code }
    requires positions { ArePositions procedure.now positions.now }
    requires many_beyonds { length beyonds.now ≡ length procedure.now.phrases }
    requires beyonds { AreBeyond procedure.now.phrases beyonds.now }
    ensures { IfOk result (λ graph. IsGraphOf code.now procedure.now graph) }
{
    let mut graph = entry_rows(alloc, code, procedure, positions)?;
    graph.append(phrase_rows(alloc, procedure, beyonds)?)?;
    Ok(graph)
}
