//! The machine that is ready for a linked image.

ghost use Rattle.std.specs.Prelude.{◌≡◌, map, None, IfOk, IfErr};
ghost use Rattle.mesa_types.specs.Plain.{plain};
ghost use Rattle.config_rules.specs.Bindings.{bindings_of};
ghost use Rattle.config_rules.specs.Resolves.{wants, first_bad};
ghost use Rattle.built_runs.specs.link_tables.specs.Linked.{wanted_of};
ghost use Rattle.built_runs.specs.machine_ready.specs.Hosts.{IsFault};
ghost use Rattle.built_runs.specs.Linked.{IsLinkedFrom};
ghost use Rattle.linked_programs.specs.Laws.{IsOfShapes};
ghost use Rattle.linked_programs.specs.Modules.{AllCanBeLinked, shapes_of};
ghost use Rattle.linked_programs.specs.Programs.{IsMachineOf};

use crate::linking::linked_image;
use crate::objects::objects_of;
use built_runs::TypedModules;
use built_runs::machine_ready::{Machine, ReadyFault, ready};
use config_rules::{BindingLists, Tree};
use object_files::Image;
use std::alloc::Global;

/// The machine of an image that is linked from a tree and modules; `Unresolved` with the first item that is left to the loader and none of
/// the host's; or want of memory.
pub fn readied(
    alloc: Global,
    tree: &Tree,
    modules: &TypedModules,
    image: Image,
) -> Result<Machine, ReadyFault>
    requires { IsLinkedFrom tree.now (map plain modules.now) image }
    ensures same { IfOk result (λ machine. machine ≡ image) }
    ensures ok { IfOk result (IsMachineOf tree.now (map plain modules.now)) }
    ensures err { IfErr result (IsFault (wanted_of (wants tree.now))) }
{
    ready(alloc, image)
}

/// The machine of a tree, in which every item binds, of its bindings and its modules: the modules are translated and the image is linked
/// on the way. It is refused as `readied` is.
pub fn machine_of(
    alloc: Global,
    tree: &Tree,
    modules: &TypedModules,
    bindings: &BindingLists,
) -> Result<Machine, ReadyFault>
    requires of_shapes { IsOfShapes (shapes_of (map plain modules.now)) tree.now }
    requires linkable { AllCanBeLinked (map plain modules.now) }
    requires none_bad { first_bad (wants tree.now) ≡ None }
    requires bindings { bindings.now ≡ bindings_of tree.now }
    ensures ok { IfOk result (IsMachineOf tree.now (map plain modules.now)) }
    ensures err { IfErr result (IsFault (wanted_of (wants tree.now))) }
{
    let objects = objects_of(alloc, modules)?;
    let image = linked_image(alloc, tree, modules, bindings, objects)?;
    readied(alloc, tree, modules, image)
}
