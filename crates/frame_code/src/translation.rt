//! The code of a module.
ghost use Rattle.std.specs.Prelude.{◌≡◌, ◌≤◌, map, IfOk};
ghost use Rattle.mesa_base.specs.declared.limits.TheConstants.{TREE_NODES};
ghost use Rattle.mesa_types.specs.Nodes.{nodes};
ghost use Rattle.mesa_types.specs.Plain.{plain};
ghost use Rattle.mesa_types.specs.Sound.{Sound};
ghost use Rattle.code_rules.specs.Modules.{procedures_of};
ghost use Rattle.code_blocks.specs.Modules.{procedure_code};
ghost use Rattle.frame_code.specs.Code.{IsCodeOf};

use crate::links::links_of;
use crate::procedures::procedures_in;
use crate::signals::signals_of;
use crate::strings::copied;
use crate::words::few_words;
use code_forms::{CodeProcedures, ModuleCode, ValidCode};
use mesa_base::OutOfMemory;
use mesa_types::TypedModule;
use std::alloc::Global;

/// The code of a sound module of at most 4,194,304 nodes, from its procedures: the code that is chosen for the module. It stands for
/// it and is valid, so nothing of it is looked at again.
pub fn assembled(
    alloc: Global,
    module: &TypedModule,
    procedures: CodeProcedures,
) -> Result<ValidCode, OutOfMemory>
    requires sound { Sound (plain «module».now) }
    requires few { nodes (plain «module».now) ≤ TREE_NODES }
    requires procedures { procedures ≡ map (procedure_code (plain «module».now)) (procedures_of (plain «module».now)) }
    ensures { IfOk result (λ made. IsCodeOf (plain «module».now) made) }
{
    let name = module.name.copy(alloc)?;
    let global_words = few_words(module.globals.as_slice());
    let signals = signals_of(alloc, module.signals.as_slice())?;
    let strings = copied(alloc, module.strings.as_slice())?;
    let links = links_of(alloc, module.imports.as_slice())?;
    Ok(ValidCode::new(ModuleCode {
        name,
        global_words,
        signals,
        strings,
        links,
        procedures,
    }))
}

/// The code that is chosen for a sound module of at most 4,194,304 nodes. The one refusal is want of memory.
pub fn translate(alloc: Global, module: &TypedModule) -> Result<ValidCode, OutOfMemory>
    requires sound { Sound (plain «module».now) }
    requires few { nodes (plain «module».now) ≤ TREE_NODES }
    ensures { IfOk result (λ code. IsCodeOf (plain «module».now) code) }
{
    let procedures = procedures_in(alloc, module)?;
    assembled(alloc, module, procedures)
}
