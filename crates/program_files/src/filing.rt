//! The files of a program.
ghost use Rattle.std.specs.Prelude.{◌≡◌, map, All, None, IfOk, IfErr};
ghost use Rattle.std.specs.List.{AllZip};
ghost use Rattle.mesa_types.specs.Plain.{plain};
ghost use Rattle.config_rules.specs.Bindings.{bindings_of};
ghost use Rattle.config_rules.specs.Resolves.{wants, first_bad};
ghost use Rattle.linked_programs.specs.built_runs.specs.Linked.{IsLinkedFrom};
ghost use Rattle.checked_texts.specs.Laws.{CanBeKept};
ghost use Rattle.linked_programs.specs.Laws.{IsOfShapes};
ghost use Rattle.linked_programs.specs.Modules.{AllCanBeLinked, shapes_of};
ghost use Rattle.linked_programs.specs.Objects.{AreObjectsOf};
ghost use Rattle.linked_files.specs.spelled_trees.specs.Paths.{PathsAndRecords};
ghost use Rattle.program_files.specs.Files.{AreFilesFor, IsSizeFault};
ghost use Rattle.program_files.specs.Objects.{HasFile};

use crate::letting_go::{let_image_go, let_objects_go};
use crate::objects::object_files;
use crate::size_fault::{SizeFault, fault_of};
use config_rules::{BindingLists, Tree};
use filed_images::image_file;
use linked_programs::built_runs::TypedModules;
use linked_programs::{linked_image, objects_of};
use mesa_base::{Bytes, Texts};
use object_files::{Image, Object};
use std::alloc::Global;

/// The files of a program, in version 2, and its image.
pub struct FiledProgram {
    /// The file of the object of each module, in order.
    pub objects: Texts,
    /// The file of the image.
    pub image_file: Bytes,
    /// The image, linked from the objects.
    pub image: Image,
}

/// Links the image of objects that have these files, and spells it.
fn with_image(
    alloc: Global,
    tree: &Tree,
    modules: &TypedModules,
    bindings: &BindingLists,
    objects: Vec<Object>,
    files: Texts,
) -> Result<FiledProgram, SizeFault>
    requires of_shapes { IsOfShapes (shapes_of (map plain modules.now)) tree.now }
    requires linkable { AllCanBeLinked (map plain modules.now) }
    requires named { PathsAndRecords tree.now }
    requires none_bad { first_bad (wants tree.now) ≡ None }
    requires bindings { bindings.now ≡ bindings_of tree.now }
    requires objects { AreObjectsOf (map plain modules.now) objects.items }
    requires files { AllZip HasFile objects.items files }
    ensures files { IfOk result (AreFilesFor tree.now (map plain modules.now)) }
    ensures linked { IfOk result (λ filed. IsLinkedFrom tree.now (map plain modules.now) filed.image) }
    ensures fault { IfErr result (IsSizeFault tree.now (map plain modules.now)) }
{
    let image = linked_image(alloc, tree, modules, bindings, objects)?;
    match image_file(alloc, &image) {
        Ok(image_file) => Ok(FiledProgram {
            objects: files,
            image_file,
            image,
        }),
        Err(fault) => {
            let_image_go(image);
            Err(fault_of(fault, SizeFault::Image))
        }
    }
}

/// Translates the modules of a tree in which every item binds, spells their objects, links the image and spells it. Refused by the first file
/// that would have more than 536,870,912 bytes, in this order: those of the objects, then that of the image; or by want of memory.
pub fn program_files(
    alloc: Global,
    tree: &Tree,
    modules: &TypedModules,
    bindings: &BindingLists,
) -> Result<FiledProgram, SizeFault>
    requires of_shapes { IsOfShapes (shapes_of (map plain modules.now)) tree.now }
    requires kept { All CanBeKept (map plain modules.now) }
    requires named { PathsAndRecords tree.now }
    requires none_bad { first_bad (wants tree.now) ≡ None }
    requires bindings { bindings.now ≡ bindings_of tree.now }
    ensures files { IfOk result (AreFilesFor tree.now (map plain modules.now)) }
    ensures linked { IfOk result (λ filed. IsLinkedFrom tree.now (map plain modules.now) filed.image) }
    ensures fault { IfErr result (IsSizeFault tree.now (map plain modules.now)) }
{
    let objects = objects_of(alloc, modules)?;
    match object_files(alloc, objects.as_slice()) {
        Ok(files) => with_image(alloc, tree, modules, bindings, objects, files),
        Err(fault) => {
            let_objects_go(objects);
            Err(fault)
        }
    }
}
