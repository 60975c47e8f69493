//! The whole code of a procedure.
ghost use Rattle.std.specs.Prelude.{◌≡◌, IfOk};
ghost use Rattle.code_trees.specs.Plain.{off, plain};
ghost use Rattle.mesa_types.specs.Typed.{Module, Procedure};
ghost use Rattle.code_blocks.specs.Modules.{body_block, deepest as deepest_of, procedure_code};
ghost use Rattle.code_blocks.specs.Regions.{written};
ghost use Rattle.code_writer.specs.Bounds.{CanBeWritten};
ghost use Rattle.code_writer.specs.Procedures.{procedure_from, words_of};

use crate::draft::Draft;
use code_forms::{CatchTable, CodeEntries, CodeEntry, CodeProcedure, Instruction};
use code_trees::Block;
use mesa_base::{List, Name, OutOfMemory};
use std::alloc::Global;

/// The instructions of a procedure in order of offset, its phrases, and the most words before an instruction.
#[derive(Drop)]
pub struct WrittenCode {
    pub depth: u32,
    pub code: CodeEntries,
    pub phrases: CatchTable,
}

/// The words of a procedure's arguments, of its results, and of its frame.
#[derive(Clone, Copy)]
pub struct FrameWords {
    pub args: u16,
    pub results: u16,
    pub frame: u16,
}

fn deepest(code: &[CodeEntry]) -> u32
    ensures { result ≡ deepest_of code.now }
{
    let mut most = 0;
    for entry in code {
        most = most.max(entry.depth);
    }
    most
}

/// Writes the code of a body: its region, then the regions of the arms, phrase by phrase. The phrases found so far are the queue
/// of those whose arms are still to be written.
pub fn write_code(alloc: Global, body: &Block) -> Result<WrittenCode, OutOfMemory>
    requires sizes { off body.now ≡ 0 }
    requires bounds { CanBeWritten (plain body.now) }
    ensures { IfOk result (λ made. made ≡ record { depth = deepest_of (written (plain body.now)).code; code = (written (plain body.now)).code; phrases = (written (plain body.now)).done }) }
{
    let mut draft = Draft::new(alloc);
    let mut end = draft.write_region(body, Instruction::Return, 0, 0)?;
    let mut phrases = List::new(alloc);
    'arms: while phrases.len() < draft.phrases.len() {
        let pending = draft.phrases[phrases.len()];
        let (phrase, behind) = draft.write_phrase(alloc, pending, end)?;
        phrases.push(phrase)?;
        end = behind;
    }
    let Draft { entries, .. } = draft;
    Ok(WrittenCode {
        depth: deepest(entries.as_slice()),
        code: entries,
        phrases,
    })
}

/// Writes a procedure with this name and these words. It is the `procedure_code` of each procedure of a module that has them and
/// whose body the tree is.
pub fn write_procedure(
    alloc: Global,
    name: &Name,
    words: FrameWords,
    body: &Block,
) -> Result<CodeProcedure, OutOfMemory>
    requires sizes { off body.now ≡ 0 }
    requires bounds { CanBeWritten (plain body.now) }
    ensures procedure { IfOk result (λ made. made ≡ procedure_from name.now words (written (plain body.now))) }
    ensures code { IfOk result (λ made. (m : Module) (p : Procedure) → plain body.now ≡ body_block m p → name.now ≡ p.head.name → words ≡ words_of m p → made ≡ procedure_code m p) }
{
    let name = name.copy(alloc)?;
    let WrittenCode {
        depth,
        code,
        phrases,
    } = write_code(alloc, body)?;
    Ok(CodeProcedure {
        name,
        args: words.args,
        results: words.results,
        frame: words.frame,
        depth,
        code,
        phrases,
    })
}
