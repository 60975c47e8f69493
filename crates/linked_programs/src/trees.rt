//! The tree of a configuration, and that of one module alone, from checked modules.

ghost use Rattle.std.specs.Prelude.{◌≡◌, ◌≢◌, [], ◌∷◌, length, map, IfOk};
ghost use Rattle.mesa_types.specs.Plain.{plain};
ghost use Rattle.cmesa_grammar.specs.Plain as grammar;
ghost use Rattle.config_rules.specs.Components.{components};
ghost use Rattle.config_rules.specs.Tree.{IsSingle, IsTree};
ghost use Rattle.built_runs.specs.bound_images.specs.Programs.{shape_of};
ghost use Rattle.linked_programs.specs.Laws.{IsOfShapes};
ghost use Rattle.linked_programs.specs.Modules.{AllCanBeLinked, CanBeLinked, shapes_of};

use crate::shapes::{let_shapes_go, shape_of, shapes_of};
use built_runs::TypedModules;
use built_runs::config_tree::{expand, single};
use cmesa_grammar::Config;
use config_rules::{Tree, TreeFault};
use mesa_types::TypedModule;
use std::alloc::Global;

/// The tree of a configuration whose components are these modules, in the order in which they are mentioned first; or its first fault
/// (`expand` of `config_tree` names them), or want of memory.
#[tactic(auto, using(crate::proofs::Copying::long_enough, crate::proofs::Answering::all_in_order, crate::proofs::Answering::is_tree, crate::proofs::Answering::tree_of_shapes))]
pub fn config_tree_of(
    alloc: Global,
    config: &Config,
    modules: &TypedModules,
) -> Result<Tree, TreeFault>
    requires one_each { length modules.now ≡ length (components (grammar.plain config.now)) }
    requires linkable { AllCanBeLinked (map plain modules.now) }
    ensures tree { result ≢ Err TreeFault.Memory → IsTree (grammar.plain config.now) (shapes_of (map plain modules.now)) result }
    ensures of_shapes { IfOk result (IsOfShapes (shapes_of (map plain modules.now))) }
{
    let shapes = shapes_of(alloc, modules)?;
    let tree = expand(alloc, config, &shapes);
    let_shapes_go(shapes);
    tree
}

/// The tree of one module by itself; or InterfaceDiffers, where two of its faces and the built-in one's have one name and stamp and are
/// not the same; or want of memory.
#[tactic(auto, using(crate::proofs::Answering::one_in_order, crate::proofs::Answering::is_single, crate::proofs::Answering::single_of_shape))]
pub fn module_tree_of(alloc: Global, module: &TypedModule) -> Result<Tree, TreeFault>
    requires { CanBeLinked (plain «module».now) }
    ensures tree { result ≢ Err TreeFault.Memory → IsSingle (shape_of (plain «module».now)) result }
    ensures of_shapes { IfOk result (IsOfShapes (shape_of (plain «module».now) ∷ [])) }
{
    let shape = shape_of(alloc, module)?;
    single(alloc, shape)
}
