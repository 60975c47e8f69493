//! What the links of a tree's instances are bound to.

ghost use Rattle.std.specs.Prelude.{◌≢◌, map, IfOk, IfErr};
ghost use Rattle.mesa_types.specs.Plain.{plain};
ghost use Rattle.built_runs.specs.import_binder.specs.Bindings.{AreBindings};
ghost use Rattle.linked_programs.specs.Laws.{IsOfShapes};
ghost use Rattle.linked_programs.specs.Modules.{AllCanBeLinked, shapes_of};
ghost use Rattle.linked_programs.specs.Programs.{IsOfFirstBad};

use built_runs::TypedModules;
use built_runs::import_binder::{BindFault, Bindings, bind};
use config_rules::Tree;
use std::alloc::Global;
use std::mem::drop;

/// Lets bindings go.
pub fn let_bindings_go(bindings: Bindings) {
    drop(bindings);
}

/// The bindings of a tree of checked modules, in which every item that is used stands for something; or the first item that does not,
/// with what is wrong with it (`bind` of `import_binder` names the faults); or want of memory.
pub fn bound(alloc: Global, tree: &Tree, modules: &TypedModules) -> Result<Bindings, BindFault>
    requires of_shapes { IsOfShapes (shapes_of (map plain modules.now)) tree.now }
    requires linkable { AllCanBeLinked (map plain modules.now) }
    ensures ok { IfOk result (AreBindings tree.now) }
    ensures err { IfErr result (λ fault. fault ≢ BindFault.Memory → IsOfFirstBad tree.now fault) }
{
    bind(alloc, tree)
}
