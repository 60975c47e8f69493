//! The listing of each kind of file: its value is read, printed, and let go.
ghost use Rattle.std.specs.Prelude.{◌≡◌, ◌≢◌, IfErr, IfOk};
ghost use Rattle.listed_files.specs.Listings.{ListsInterface, ListsObject, ListsImage, LacksInterface};
ghost use Rattle.listing_rules.specs.Images.{image_listing};
ghost use Rattle.listing_rules.specs.Interfaces.{interface_listing};
ghost use Rattle.listing_rules.specs.Objects.{object_listing};
ghost use Rattle.object_rules.specs.ImageFiles.{IsNoImageFile};
ghost use Rattle.object_rules.specs.ObjectFiles.{IsNoObjectFile};

use crate::printing::{image_text, interface_text, object_text};
use held_objects::{let_objects_go, let_wanted_go};
use held_trees::LetGo;
use image_readers::object_readers::{file_fault, read_object};
use image_readers::read_image;
use interface_readers::read_interface;
use interface_records::Interface;
use mesa_base::Bytes;
use object_files::{Image, Object};
use object_rules::ObjectFault;
use std::alloc::Global;
use std::mem::drop;

// ---- interfaces

fn of_interface(alloc: Global, interface: Interface) -> Result<Bytes, ObjectFault>
    ensures listing { IfOk result (λ text. text ≡ interface_listing interface) }
    ensures fault { IfErr result (λ e. e ≡ ObjectFault.Memory) }
{
    let text = interface_text(alloc, &interface);
    interface.let_go();
    match text {
        Ok(text) => Ok(text),
        Err(_) => Err(ObjectFault::Memory),
    }
}

pub(crate) fn list_interface(alloc: Global, bytes: &[u8]) -> Result<Bytes, ObjectFault>
    ensures found { IfOk result (ListsInterface bytes.now) }
    ensures fault { IfErr result (λ e. e ≢ ObjectFault.Memory → LacksInterface bytes.now e) }
{
    match read_interface(alloc, bytes) {
        Ok(interface) => of_interface(alloc, interface),
        Err(fault) => Err(file_fault(fault)),
    }
}

// ---- objects

fn let_object_go(object: Object) {
    let Object { shape, code } = object;
    drop(code);
    shape.let_go();
}

fn of_object(alloc: Global, object: Object) -> Result<Bytes, ObjectFault>
    ensures listing { IfOk result (λ text. text ≡ object_listing object) }
    ensures fault { IfErr result (λ e. e ≡ ObjectFault.Memory) }
{
    let text = object_text(alloc, &object);
    let_object_go(object);
    match text {
        Ok(text) => Ok(text),
        Err(_) => Err(ObjectFault::Memory),
    }
}

pub(crate) fn list_object(alloc: Global, bytes: &[u8]) -> Result<Bytes, ObjectFault>
    ensures found { IfOk result (ListsObject bytes.now) }
    ensures fault { IfErr result (λ e. e ≢ ObjectFault.Memory → IsNoObjectFile bytes.now e) }
{
    match read_object(alloc, bytes) {
        Ok(object) => of_object(alloc, object),
        Err(fault) => Err(fault),
    }
}

// ---- images

fn let_image_go(image: Image) {
    let Image {
        modules,
        wanted,
        instances,
        links,
        offered,
        control,
    } = image;
    let_objects_go(modules);
    let_wanted_go(wanted);
    drop(instances);
    drop(links);
    drop(offered);
    drop(control);
}

fn of_image(alloc: Global, image: Image) -> Result<Bytes, ObjectFault>
    ensures listing { IfOk result (λ text. text ≡ image_listing image) }
    ensures fault { IfErr result (λ e. e ≡ ObjectFault.Memory) }
{
    let text = image_text(alloc, &image);
    let_image_go(image);
    match text {
        Ok(text) => Ok(text),
        Err(_) => Err(ObjectFault::Memory),
    }
}

pub(crate) fn list_image(alloc: Global, bytes: &[u8]) -> Result<Bytes, ObjectFault>
    ensures found { IfOk result (ListsImage bytes.now) }
    ensures fault { IfErr result (λ e. e ≢ ObjectFault.Memory → IsNoImageFile bytes.now e) }
{
    match read_image(alloc, bytes) {
        Ok(image) => of_image(alloc, image),
        Err(fault) => Err(fault),
    }
}
