//! The image that is linked from a tree and the objects of its modules.

ghost use Rattle.std.specs.Prelude.{◌≡◌, map, None, IfOk};
ghost use Rattle.mesa_types.specs.Plain.{plain};
ghost use Rattle.config_rules.specs.Bindings.{bindings_of};
ghost use Rattle.config_rules.specs.Resolves.{wants, first_bad};
ghost use Rattle.built_runs.specs.link_tables.specs.Linked.{image_of};
ghost use Rattle.built_runs.specs.Linked.{IsLinkedFrom};
ghost use Rattle.linked_programs.specs.Laws.{IsOfShapes};
ghost use Rattle.linked_programs.specs.Modules.{AllCanBeLinked, shapes_of};
ghost use Rattle.linked_programs.specs.Objects.{AreObjectsOf};

use built_runs::TypedModules;
use built_runs::link_tables::link;
use config_rules::{BindingLists, Tree};
use mesa_base::OutOfMemory;
use object_files::{Image, Object};
use std::alloc::Global;

/// The image of a tree, in which every item binds, of its bindings, and of the objects of its modules, which are moved into it. Want of
/// memory is the one refusal; then all objects are let go.
#[tactic(auto, using(crate::proofs::Building::link_tree, crate::proofs::Building::all_linked))]
pub fn linked_image(
    alloc: Global,
    tree: &Tree,
    modules: &TypedModules,
    bindings: &BindingLists,
    objects: Vec<Object>,
) -> Result<Image, OutOfMemory>
    requires of_shapes { IsOfShapes (shapes_of (map plain modules.now)) tree.now }
    requires linkable { AllCanBeLinked (map plain modules.now) }
    requires none_bad { first_bad (wants tree.now) ≡ None }
    requires bindings { bindings.now ≡ bindings_of tree.now }
    requires objects { AreObjectsOf (map plain modules.now) objects.items }
    ensures same { IfOk result (λ image. image ≡ image_of tree.now objects.items) }
    ensures linked { IfOk result (IsLinkedFrom tree.now (map plain modules.now)) }
{
    link(alloc, tree, bindings, objects)
}
