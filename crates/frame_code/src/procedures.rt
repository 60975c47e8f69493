//! The procedures of a module, its body first.
ghost use Rattle.std.specs.Prelude.{◌≡◌, ◌≤◌, length, map, slice_get, Some, IfOk};
ghost use Rattle.mesa_base.specs.declared.limits.TheConstants.{TREE_NODES};
ghost use Rattle.mesa_types.specs.Nodes.{nodes};
ghost use Rattle.mesa_types.specs.Plain.{plain};
ghost use Rattle.mesa_types.specs.Sound.{Sound};
ghost use Rattle.mesa_types.specs.Typed.{Module};
ghost use Rattle.code_rules.specs.Modules.{procedures_of};
ghost use Rattle.code_blocks.specs.Modules.{procedure_code, uncoded};
ghost use Rattle.code_bodies.specs.code_trees.specs.Routines.{coded};
ghost use Rattle.frame_code.specs.Heads.{procedure_in};
ghost use Rattle.frame_code.specs.Rooms.{HasRoom, IsOf};

use crate::heads::{Placed, procedure_at};
use crate::words::few_words;
use code_bodies::body_block;
use code_bodies::code_trees::{Layout, Links, Routine};
use code_forms::{CodeProcedure, CodeProcedures};
use code_ranges::bodies_are_in_range;
use code_writer::{FrameWords, bodies_can_be_written, write_procedure};
use held_trees::LetGo;
use mesa_base::OutOfMemory;
use mesa_types::TypedModule;
use std::alloc::Global;

/// The code of a procedure whose variables the routine has. In its frame lie 16 scratch words behind them, then the hidden words.
fn written(
    alloc: Global,
    routine: &Routine,
    placed: Placed<'_>,
) -> Result<CodeProcedure, OutOfMemory>
    requires { HasRoom (coded routine.now) (procedure_in placed) }
    ensures { IfOk result (λ made. (m : Module) → coded routine.now ≡ uncoded m (procedure_in placed.entry) → made ≡ procedure_code m (procedure_in placed.entry)) }
{
    let mut frame = (routine.locals.words + 16) as u16;
    let part = body_block(alloc, routine, &mut frame, placed.body.does.get())?;
    let words = FrameWords {
        args: few_words(placed.takes),
        results: few_words(placed.gives),
        frame,
    };
    let code = write_procedure(alloc, placed.name, words, &part.block);
    part.let_go();
    code
}

/// The code of a procedure by its number, 0 for the body; its variables are laid out in the routine.
fn procedure<'a>(
    alloc: Global,
    module: &'a TypedModule,
    routine: &mut Routine<'a>,
    number: usize,
) -> Result<CodeProcedure, OutOfMemory>
    requires sound { Sound (plain «module».now) }
    requires few { nodes (plain «module».now) ≤ TREE_NODES }
    requires number { number ≤ length «module».now.procedures }
    requires routine { IsOf (plain «module».now) routine.old }
    ensures routine { IsOf (plain «module».now) routine.new }
    ensures code { IfOk result (λ made. slice_get (map (procedure_code (plain «module».now)) (procedures_of (plain «module».now))) number ≡ Some made) }
{
    bodies_are_in_range();
    bodies_can_be_written();
    let placed = procedure_at(module, number);
    let variables = placed.body.variables.as_slice();
    routine.locals = Layout::new(alloc, placed.takes, placed.gives, variables)?;
    written(alloc, routine, placed)
}

/// The links and the globals of a module, before any procedure's variables are laid out.
fn routine_of<'a>(alloc: Global, module: &'a TypedModule) -> Result<Routine<'a>, OutOfMemory>
    requires { Sound (plain «module».now) }
    ensures { IfOk result (IsOf (plain «module».now)) }
{
    Ok(Routine {
        links: Links::new(alloc, &module.imports)?,
        globals: Layout::new(alloc, module.globals.as_slice(), &[], &[])?,
        locals: Layout::new(alloc, &[], &[], &[])?,
    })
}

/// The code of the body of a sound module of at most 4,194,304 nodes, and that of its procedures.
pub fn procedures_in(alloc: Global, module: &TypedModule) -> Result<CodeProcedures, OutOfMemory>
    requires sound { Sound (plain «module».now) }
    requires few { nodes (plain «module».now) ≤ TREE_NODES }
    ensures { IfOk result (λ made. made ≡ map (procedure_code (plain «module».now)) (procedures_of (plain «module».now))) }
{
    let mut routine = routine_of(alloc, module)?;
    let mut made = CodeProcedures::new(alloc);
    for number in 0..module.procedures.len() + 1 {
        made.push(procedure(alloc, module, &mut routine, number)?)?;
    }
    Ok(made)
}
