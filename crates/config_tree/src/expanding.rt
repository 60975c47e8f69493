//! The tree of a configuration.
ghost use Rattle.std.specs.Prelude.{◌≡◌, ◌≢◌, All, length, IfOk};
ghost use Rattle.config_rules.specs.cmesa_grammar.specs.Plain.{plain};
ghost use Rattle.config_rules.specs.Components.{components};
ghost use Rattle.config_rules.specs.InOrder.{ShapeInOrder, TreeIn};
ghost use Rattle.config_rules.specs.Tree.{IsTree};

use crate::finishing::finished;
use config_rules::cmesa_grammar::Config;
use config_rules::{Shapes, Tree, TreeFault};
use config_templates::{components_as_written, gone_through};
use held_trees::LetGo;
use std::alloc::Global;

/// The tree of a configuration whose components have these shapes, in the order of first mention.
///
/// Else the first fault, in this order: more than 32 configurations around each other; the statements in text order, a nested
/// configuration as a whole at its place; the IMPORTS; the EXPORTS; CONTROL (`gone_through`); a path of more than 32 names, at the
/// outermost statement; more than 1,024 instances of modules and nested configurations, at the outermost statement with which there
/// are; InterfaceDiffers, at the first mention of the first component with a face that has the name and stamp of an earlier one and is
/// not the same (a rule of this project). Memory: it ran out.
pub fn expand(alloc: Global, config: &Config, shapes: &Shapes) -> Result<Tree, TreeFault>
    requires one_each { length shapes.now ≡ length (components (plain config.now)) }
    requires in_order { All ShapeInOrder shapes.now }
    ensures tree { result ≢ Err TreeFault.Memory → IsTree (plain config.now) shapes.now result }
    ensures in_order { IfOk result (TreeIn shapes.now) }
{
    let components = components_as_written(alloc, config)?;
    let shapes = shapes.as_slice();
    let template = gone_through(alloc, config, components.as_slice(), shapes)?;
    let tree = finished(alloc, components.as_slice(), shapes, &template);
    template.let_go();
    tree
}
