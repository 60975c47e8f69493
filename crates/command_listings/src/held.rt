//! Whether bytes are a file.

ghost use Rattle.std.specs.Prelude.{◌≢◌, IfErr, OnOk};
ghost use Rattle.command_passes.specs.command_rules.specs.Forms.{InterfaceFile, ObjectFile, ImageFile};
ghost use Rattle.command_passes.specs.Kinds.{kind_in};
ghost use Rattle.listed_files.specs.Listings.{HasFault, LacksInterface};
ghost use Rattle.object_rules.specs.ImageFiles.{IsNoImageFile};
ghost use Rattle.object_rules.specs.ObjectFiles.{IsNoObjectFile};
ghost use Rattle.command_listings.specs.Upgrading.{IsHeld};

use held_objects::{let_objects_go, let_wanted_go};
use held_trees::LetGo;
use interface_readers::read_interface;
use listed_files::FileKind;
use mesa_lister::image_readers::read_image;
use mesa_lister::object_readers::{file_fault, read_object};
use object_files::{Image, Object};
use object_rules::ObjectFault;
use std::alloc::Global;
use std::mem::drop;

fn is_interface(alloc: Global, bytes: &[u8]) -> Result<(), ObjectFault>
    ensures held { OnOk result (IsHeld InterfaceFile bytes.now) }
    ensures fault { IfErr result (λ e. e ≢ ObjectFault.Memory → LacksInterface bytes.now e) }
{
    match read_interface(alloc, bytes) {
        Ok(interface) => {
            interface.let_go();
            Ok(())
        }
        Err(fault) => Err(file_fault(fault)),
    }
}

fn let_object_go(object: Object) {
    let Object { shape, code } = object;
    shape.let_go();
    drop(code);
}

fn is_object(alloc: Global, bytes: &[u8]) -> Result<(), ObjectFault>
    ensures held { OnOk result (IsHeld ObjectFile bytes.now) }
    ensures fault { IfErr result (λ e. e ≢ ObjectFault.Memory → IsNoObjectFile bytes.now e) }
{
    match read_object(alloc, bytes) {
        Ok(object) => {
            let_object_go(object);
            Ok(())
        }
        Err(fault) => Err(fault),
    }
}

fn let_image_go(image: Image) {
    let Image {
        modules,
        wanted,
        instances: _,
        links: _,
        offered: _,
        control: _,
    } = image;
    let_objects_go(modules);
    let_wanted_go(wanted);
}

fn is_image(alloc: Global, bytes: &[u8]) -> Result<(), ObjectFault>
    ensures held { OnOk result (IsHeld ImageFile bytes.now) }
    ensures fault { IfErr result (λ e. e ≢ ObjectFault.Memory → IsNoImageFile bytes.now e) }
{
    match read_image(alloc, bytes) {
        Ok(image) => {
            let_image_go(image);
            Ok(())
        }
        Err(fault) => Err(fault),
    }
}

/// Whether the bytes are a file of this kind, in either version; else their first fault.
pub(crate) fn is_file(alloc: Global, bytes: &[u8], kind: FileKind) -> Result<(), ObjectFault>
    ensures held { OnOk result (IsHeld (kind_in kind) bytes.now) }
    ensures fault { IfErr result (λ e. e ≢ ObjectFault.Memory → HasFault kind bytes.now e) }
{
    match kind {
        FileKind::Interface => is_interface(alloc, bytes),
        FileKind::Object => is_object(alloc, bytes),
        FileKind::Image => is_image(alloc, bytes),
    }
}
