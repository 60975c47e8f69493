//! The file of the image that is linked from a tree and the objects of its components.
ghost use Rattle.std.specs.Prelude.{◌≡◌, ◌≢◌, ◌↔◌, All, Err, None, IfOk};
ghost use Rattle.mesa_base.specs.declared.file_fault.WriteFault.TheVariants as fault;
ghost use Rattle.config_rules.specs.Bindings.{bindings_of};
ghost use Rattle.config_rules.specs.Resolves.{wants, first_bad};
ghost use Rattle.link_tables.specs.Linked.{image_of};
ghost use Rattle.link_tables.specs.Parts.{shapes_of};
ghost use Rattle.object_rules.specs.ImageFiles.{IsImageFile};
ghost use Rattle.object_writers.specs.ObjectBytes.{image_file};
ghost use Rattle.linked_files.specs.spelled_trees.specs.Paths.{PathsAndRecords};
ghost use Rattle.filed_images.specs.Files.{IsTooLarge};
ghost use Rattle.filed_images.specs.Images.{CanBeFiled};
ghost use Rattle.linked_programs.specs.Laws.{IsOfShapes};
ghost use Rattle.linked_objects.specs.Filed.{IsFiled};

use config_rules::{BindingLists, Tree};
use filed_images::image_file;
use held_objects::{let_objects_go, let_wanted_go};
use link_tables::link;
use mesa_base::{Bytes, OutOfMemory, WriteFault};
use object_files::{Image, Object};
use std::alloc::Global;

fn let_image_go(image: Image) {
    let Image {
        modules,
        wanted,
        instances: _,
        links: _,
        offered: _,
        control: _,
    } = image;
    let_objects_go(modules);
    let_wanted_go(wanted);
}

/// The file of an image, which is let go.
fn spelled(alloc: Global, image: Image) -> Result<Bytes, WriteFault>
    requires { CanBeFiled image }
    ensures ok { IfOk result (λ file. IsImageFile 2 image file) }
    ensures too_large { result ≢ Err fault.Memory → (result ≡ Err fault.TooLarge ↔ IsTooLarge (image_file image)) }
{
    let file = image_file(alloc, &image);
    let_image_go(image);
    file
}

/// The file, in version 2, of the image that is linked from a tree, in which every item binds, from its bindings, and from the objects of its
/// components, which came of files and are let go. TooLarge, want of memory aside, exactly where the file would have more than 536,870,912 bytes.
pub fn linked_file(
    alloc: Global,
    tree: &Tree,
    bindings: &BindingLists,
    objects: Vec<Object>,
) -> Result<Bytes, WriteFault>
    requires of_shapes { IsOfShapes (shapes_of objects.items) tree.now }
    requires filed { All IsFiled objects.items }
    requires named { PathsAndRecords tree.now }
    requires none_bad { first_bad (wants tree.now) ≡ None }
    requires bindings { bindings.now ≡ bindings_of tree.now }
    ensures ok { IfOk result (λ file. IsImageFile 2 (image_of tree.now objects.items) file) }
    ensures too_large { result ≢ Err fault.Memory → (result ≡ Err fault.TooLarge ↔ IsTooLarge (image_file (image_of tree.now objects.items))) }
{
    match link(alloc, tree, bindings, objects) {
        Ok(image) => spelled(alloc, image),
        Err(OutOfMemory) => Err(WriteFault::Memory),
    }
}
