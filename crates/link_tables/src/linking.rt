//! The whole image.

ghost use Rattle.std.specs.Prelude.{◌≡◌, [], length, IfOk};
ghost use Rattle.config_rules.specs.Bindings.{bindings_of};
ghost use Rattle.config_rules.specs.InOrder.{IsInward, TreeIn};
ghost use Rattle.link_tables.specs.Linked.{image_of};
ghost use Rattle.link_tables.specs.Modules.{marked};
ghost use Rattle.link_tables.specs.Parts.{shapes_of, Fits, ArePlain, tables_in};
ghost use Rattle.link_tables.specs.Passes.{tables, all_tables};

use crate::links::put_all;
use crate::modules::{instances_of, kept_objects, let_objects_go, marks_of, numbers_of};
use crate::offers::offers_of;
use crate::wanting::{Wanting, let_wanteds_go};
use config_rules::{BindingLists, Tree};
use interface_records::Wanteds;
use mesa_base::{List, Numbers, OutOfMemory};
use object_files::{Image, Instances, LinkTables, Object, Offers};
use std::alloc::Global;

// What holds no types: marks of the components that have an instance, instances, offers and the CONTROL list.
#[derive(Drop)]
pub struct Plain {
    pub marks: Vec<bool>,
    pub instances: Instances,
    pub offered: Offers,
    pub control: Numbers,
}

// The items that are wanted of the loader, and the links of the instances.
pub struct LinkedTables {
    pub wanted: Wanteds,
    pub links: LinkTables,
}

fn plain_of(alloc: Global, tree: &Tree, many: usize) -> Result<Plain, OutOfMemory>
    requires fits { Fits many tree.now }
    requires inward { IsInward tree.now }
    ensures { IfOk result (ArePlain many tree.now) }
{
    let instances = tree.instances.as_slice();
    let marks = marks_of(alloc, instances, many)?;
    let numbers = numbers_of(alloc, marks.as_slice())?;
    let instances = instances_of(alloc, instances, numbers.as_slice())?;
    let offered = offers_of(alloc, tree)?;
    let control = List::from_slice(alloc, tree.control.as_slice())?;
    Ok(Plain {
        marks,
        instances,
        offered,
        control,
    })
}

fn linked_of(
    alloc: Global,
    tree: &Tree,
    bindings: &BindingLists,
) -> Result<LinkedTables, OutOfMemory>
    ensures { IfOk result (λ linked. tables_in linked ≡ all_tables bindings.now (tables [] []) tree.now.instances) }
{
    let mut wanting = Wanting::new(alloc);
    let mut links = List::new(alloc);
    let put = put_all(
        alloc,
        &mut wanting,
        tree.instances.as_slice(),
        bindings,
        &mut links,
    );
    let Wanting {
        keys: _,
        entries: wanted,
    } = wanting;
    match put {
        Ok(()) => Ok(LinkedTables { wanted, links }),
        Err(OutOfMemory) => {
            let_wanteds_go(wanted);
            Err(OutOfMemory)
        }
    }
}

fn joined(
    alloc: Global,
    plain: Plain,
    linked: LinkedTables,
    objects: Vec<Object>,
) -> Result<Image, OutOfMemory>
    ensures { IfOk result (λ image. image ≡ record {
      modules = marked objects.items plain.marks.items;
      wanted = linked.wanted;
      instances = plain.instances;
      links = linked.links;
      offered = plain.offered;
      control = plain.control;
    }) }
{
    let LinkedTables { wanted, links } = linked;
    match kept_objects(alloc, objects, plain.marks.as_slice()) {
        Ok(modules) => {
            let Plain {
                marks: _,
                instances,
                offered,
                control,
            } = plain;
            Ok(Image {
                modules,
                wanted,
                instances,
                links,
                offered,
                control,
            })
        }
        Err(OutOfMemory) => {
            let_wanteds_go(wanted);
            Err(OutOfMemory)
        }
    }
}

fn with_links(
    alloc: Global,
    tree: &Tree,
    bindings: &BindingLists,
    plain: Plain,
    objects: Vec<Object>,
) -> Result<Image, OutOfMemory>
    requires tree { TreeIn (shapes_of objects.items) tree.now }
    requires bindings { bindings.now ≡ bindings_of tree.now }
    requires plain { ArePlain (length objects.items) tree.now plain }
    ensures { IfOk result (λ image. image ≡ image_of tree.now objects.items) }
{
    match linked_of(alloc, tree, bindings) {
        Ok(linked) => joined(alloc, plain, linked, objects),
        Err(OutOfMemory) => {
            let_objects_go(objects);
            Err(OutOfMemory)
        }
    }
}

/// The image of a tree and of the objects of its components, in the order in which the components are mentioned first
/// (Language Manual, chapter 7; the form of an image is a rule of this project). The bindings are those of this tree. The objects are
/// moved into the image, those of components without an instance are let go. Want of memory, for which more modules or wanted
/// items count than 32 bits can number, is the one refusal; then all objects are let go.
pub fn link(
    alloc: Global,
    tree: &Tree,
    bindings: &BindingLists,
    objects: Vec<Object>,
) -> Result<Image, OutOfMemory>
    requires tree { TreeIn (shapes_of objects.items) tree.now }
    requires bindings { bindings.now ≡ bindings_of tree.now }
    ensures { IfOk result (λ image. image ≡ image_of tree.now objects.items) }
{
    match plain_of(alloc, tree, objects.len()) {
        Ok(plain) => with_links(alloc, tree, bindings, plain, objects),
        Err(OutOfMemory) => {
            let_objects_go(objects);
            Err(OutOfMemory)
        }
    }
}
