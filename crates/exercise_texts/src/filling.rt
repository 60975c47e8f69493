//! The folder of the exercise is filled.

ghost use Rattle.std.specs.Prelude.{◌≡◌, [], IfOk};
ghost use Rattle.mesa_base.specs.Calls.{no_calls};
ghost use Rattle.exercise_texts.specs.ExerciseFolder.{exercise_of};
ghost use Rattle.exercise_texts.specs.Files.{exercise_list};

use crate::chain::chain_text;
use crate::folder::ExerciseFolder;
use crate::texts::{LAST, LINK, MAIN, SIG_DEFS, STEP_DEFS};
use mesa_base::{List, MemoryFolder, OutOfMemory};
use std::alloc::Global;

/// A folder with the files of the exercise and so many links, of which no call has been made.
pub fn exercise_folder(alloc: Global, links: u16) -> Result<ExerciseFolder, OutOfMemory>
    ensures { IfOk result (λ folder. folder ≡ exercise_of links) }
{
    let files = filled(alloc, links)?;
    Ok(ExerciseFolder::of(files))
}

fn filled(alloc: Global, links: u16) -> Result<MemoryFolder, OutOfMemory>
    ensures { IfOk result (λ folder. folder ≡ record { files = exercise_list links; calls = no_calls []; misses = 0 }) }
{
    let chain = chain_text(alloc, links)?;
    let mut folder = MemoryFolder::new(alloc, List::new(alloc));
    folder.insert("StepDefs.mif", STEP_DEFS)?;
    folder.insert("SigDefs.mif", SIG_DEFS)?;
    folder.insert("Link.mesa", LINK.as_bytes())?;
    folder.insert("Last.mesa", LAST.as_bytes())?;
    folder.insert("Main.mesa", MAIN.as_bytes())?;
    folder.insert("Chain.config", chain.as_slice())?;
    Ok(folder)
}
