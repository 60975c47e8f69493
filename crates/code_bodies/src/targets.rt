//! Blocks of the targets of an extractor.
ghost use Rattle.std.specs.Prelude.{◌≡◌, ◌+◌, ◌≤◌, [], map, IfOk, OnOk};
ghost use Rattle.mesa_base.specs.Chain.{chain};
ghost use Rattle.mesa_types.specs.Counts.{hidden_targets};
ghost use Rattle.mesa_types.specs.Plain.{target};
ghost use Rattle.mesa_types.specs.Typed as t;
ghost use Rattle.code_blocks.specs.Translation as spec;
ghost use Rattle.code_trees.specs.Excess.{excess};
ghost use Rattle.code_trees.specs.Plain.{plain};
ghost use Rattle.code_trees.specs.Routines.{coded};

use crate::expressions::path;
use crate::rooms::room_for_path;
use code_trees::making::no_row;
use code_trees::target_forms::{Taking, take, taken};
use code_trees::{Part, Routine};
use held_trees::both;
use mesa_base::{List, OutOfMemory};
use mesa_types::Target;
use std::alloc::Global;

/// The targets of a value of so many words, one behind the other, and the words that none takes dropped.
#[cycle(blocks)]
pub(crate) fn targets(
    alloc: Global,
    routine: &Routine,
    next: &mut u16,
    all: u64,
    ts: &[Target],
) -> Result<Part, OutOfMemory>
    requires room { next.old + hidden_targets (chain (map target ts.now) t.NoTargets) ≤ 65535 }
    requires fits { excess (spec.targets (coded routine.now) next.old all [] (chain (map target ts.now) t.NoTargets)) ≡ 0 }
    ensures block { IfOk result (λ made. plain made.block ≡ spec.targets (coded routine.now) next.old all [] (chain (map target ts.now) t.NoTargets)) }
    ensures next { OnOk result (next.new ≡ next.old + hidden_targets (chain (map target ts.now) t.NoTargets)) }
{
    let mut held = Taking {
        row: no_row(alloc),
        taken: List::new(alloc),
    };
    for target in ts {
        let suffixes = target.suffixes.as_slice();
        room_for_path(routine, *next, suffixes);
        let (before, way) = both(held, path(alloc, routine, next, suffixes))?;
        held = take(alloc, routine, before, all, target, way)?;
    }
    taken(alloc, held, all)
}
