//! The tree of a configuration, from the objects of its components.
ghost use Rattle.std.specs.Prelude.{◌≡◌, ◌≢◌, All, length, IfOk};
ghost use Rattle.cmesa_grammar.specs.Plain.{plain};
ghost use Rattle.config_rules.specs.Components.{components};
ghost use Rattle.config_rules.specs.Tree.{IsTree};
ghost use Rattle.link_tables.specs.Parts.{shapes_of};
ghost use Rattle.linked_programs.specs.Laws.{IsOfShapes};
ghost use Rattle.linked_objects.specs.Filed.{IsFiled};

use crate::shapes::shapes_of;
use cmesa_grammar::Config;
use config_rules::{Tree, TreeFault};
use link_tables::config_tree::expand;
use linked_programs::let_shapes_go;
use object_files::Object;
use std::alloc::Global;

/// The tree of a configuration whose components have these objects, in the order in which they are mentioned first; or its first fault
/// (`expand` of `config_tree` names them), or want of memory.
#[tactic(auto, using(crate::proofs::Copies::long_enough, crate::proofs::Filed::all_in_order, linked_programs::proofs::Answering::is_tree))]
pub fn object_tree_of(alloc: Global, config: &Config, objects: &[Object]) -> Result<Tree, TreeFault>
    requires one_each { length objects.now ≡ length (components (plain config.now)) }
    requires filed { All IsFiled objects.now }
    ensures tree { result ≢ Err TreeFault.Memory → IsTree (plain config.now) (shapes_of objects.now) result }
    ensures of_shapes { IfOk result (IsOfShapes (shapes_of objects.now)) }
{
    let shapes = shapes_of(alloc, objects)?;
    let tree = expand(alloc, config, &shapes);
    let_shapes_go(shapes);
    tree
}
