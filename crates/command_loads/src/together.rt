//! Several images that are loaded as one.

ghost use Rattle.std.specs.Prelude.{◌≡◌, ◌≤◌, All, IfErr, IfOk, length, map};
ghost use Rattle.std.specs.Str.{IsAscii};
ghost use Rattle.interface_records.specs.Hosts.{IsHostItem};
ghost use Rattle.loader_rules.specs.declared.limits.TheConstants.{MOST_IMAGES};
ghost use Rattle.machine_ready.specs.Order.{ImageInOrder};
ghost use Rattle.object_rules.specs.ImageForms.{parts_of_image};
ghost use Rattle.command_passes.specs.Filed.{IsFiledImage};
ghost use Rattle.command_passes.specs.Stops.{stop_case};
ghost use Rattle.command_passes.specs.declared.stop.Stop.TheVariants as stop;
ghost use Rattle.command_loads.specs.Lacking.{FindsLack, HasFor, IsFirstLack};
ghost use Rattle.command_loads.specs.Loaded.{IsNotReadied, ReadiesTo};

use crate::ends::unloaded;
use crate::images::let_images_go;
use crate::lacking::{Lack, first_lack, lacking};
use command_passes::Stop;
use image_loader::load;
use load_checks::first_fault;
use loader_rules::{
    Images, first_image_has_the_fault, loaded_images_are_in_order, loads_come_once, wanted_by_one,
};
use machine_ready::{Machine, ReadyFault, ready};
use mesa_base::{Bytes, OutOfMemory};
use object_files::Image;
use read_files::images_are_in_order;
use std::alloc::Global;
use upgraded_files::files_are_upgraded;

/// The machine of an image that wants nothing but the host's items.
fn readied(alloc: Global, image: Image) -> Result<Machine, Stop>
    requires order { ImageInOrder image }
    requires hosts { All IsHostItem image.wanted }
    ensures same { IfOk result (λ machine. machine ≡ image) }
    ensures memory { IfErr result (λ why. why ≡ stop.Memory) }
{
    match ready(alloc, image) {
        Ok(machine) => Ok(machine),
        Err(ReadyFault::Unresolved(_)) => unreachable!(),
        Err(ReadyFault::Memory) => Err(Stop::Memory),
    }
}

/// What ends the call where the host lacks an item that one of these images wants: their first load fault, or else the lack.
fn with_lack(alloc: Global, bases: &[Bytes], images: Images, lack: Lack) -> Stop
    requires plain { All IsAscii bases.now }
    requires several { 2 ≤ length images.items }
    requires few { length images.items ≤ MOST_IMAGES }
    requires each { length images.items ≡ length bases.now }
    requires filed { All IsFiledImage images.items }
    requires lack { IsFirstLack images.items lack }
    ensures { IsNotReadied bases.now (map parts_of_image images.items) (stop_case result) }
{
    loads_come_once();
    first_image_has_the_fault();
    let faultless = first_fault(alloc, &images);
    let_images_go(images);
    match faultless {
        Ok(()) => lacking(alloc, bases, lack),
        Err(fault) => unloaded(alloc, bases, fault),
    }
}

/// The machine of what is loaded of these images, which want nothing that the host lacks; or what ends the call.
fn without_lack(alloc: Global, bases: &[Bytes], images: Images) -> Result<Machine, Stop>
    requires plain { All IsAscii bases.now }
    requires several { 2 ≤ length images.items }
    requires few { length images.items ≤ MOST_IMAGES }
    requires each { length images.items ≡ length bases.now }
    requires filed { All IsFiledImage images.items }
    requires had { All HasFor images.items }
    ensures { ReadiesTo bases.now (map parts_of_image images.items) result }
{
    files_are_upgraded();
    loaded_images_are_in_order();
    images_are_in_order();
    first_image_has_the_fault();
    wanted_by_one();
    match load(alloc, images) {
        Ok(image) => readied(alloc, image),
        Err(fault) => Err(unloaded(alloc, bases, fault)),
    }
}

/// The machine of what is loaded of these images, where nothing lacks; or what ends the call.
fn joined(
    alloc: Global,
    bases: &[Bytes],
    images: Images,
    lack: Option<Lack>,
) -> Result<Machine, Stop>
    requires plain { All IsAscii bases.now }
    requires several { 2 ≤ length images.items }
    requires few { length images.items ≤ MOST_IMAGES }
    requires each { length images.items ≡ length bases.now }
    requires filed { All IsFiledImage images.items }
    requires lack { FindsLack images.items lack }
    ensures { ReadiesTo bases.now (map parts_of_image images.items) result }
{
    match lack {
        Some(lack) => Err(with_lack(alloc, bases, images, lack)),
        None => without_lack(alloc, bases, images),
    }
}

/// The machine of what is loaded of the images in the files of these bases; or what ends the call: the first fault of the first image that is not
/// loaded, or else the first item that one of them wants and the host has not.
pub(crate) fn together(alloc: Global, bases: &[Bytes], images: Images) -> Result<Machine, Stop>
    requires plain { All IsAscii bases.now }
    requires several { 2 ≤ length images.items }
    requires few { length images.items ≤ MOST_IMAGES }
    requires each { length images.items ≡ length bases.now }
    requires filed { All IsFiledImage images.items }
    ensures { ReadiesTo bases.now (map parts_of_image images.items) result }
{
    // What the host has not is looked for first, and told only where the images have no load fault: where it lacks something nothing is loaded, so
    // that what is still wanted of images that are loaded are the host's items at most.
    match first_lack(alloc, images.as_slice()) {
        Ok(lack) => joined(alloc, bases, images, lack),
        Err(OutOfMemory) => {
            let_images_go(images);
            Err(Stop::Memory)
        }
    }
}
