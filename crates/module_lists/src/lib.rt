//! Lists of checked modules: how one more is put behind them, and how they are let go. The drop of a list of typed trees is proved here alone.
#![tactic(auto)]

ghost use Rattle.std.specs.Prelude.{◌≡◌, ◌++◌, ◌∷◌, [], IfOk};

use held_trees::LetGo;
use mesa_base::{List, OutOfMemory};
use mesa_types::TypedModule;
use std::alloc::AllocFailed;
use std::mem::drop;

/// Lets the modules go.
pub fn let_modules_go(modules: List<TypedModule>) {
    drop(modules);
}

/// The modules with one more behind them. Where memory is wanting all are let go.
pub fn with_module(
    mut modules: List<TypedModule>,
    module: TypedModule,
) -> Result<List<TypedModule>, OutOfMemory>
    ensures { IfOk result (λ longer. longer ≡ modules ++ «module» ∷ []) }
{
    match modules.push(module) {
        Ok(()) => Ok(modules),
        Err(failed) => {
            let AllocFailed { value } = failed;
            value.let_go();
            let_modules_go(modules);
            Err(OutOfMemory)
        }
    }
}
