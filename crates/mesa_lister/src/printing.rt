//! The listings of values, as texts of their own.
ghost use Rattle.std.specs.Prelude.{◌≡◌, IfOk};
ghost use Rattle.listing_rules.specs.Images.{image_listing};
ghost use Rattle.listing_rules.specs.Interfaces.{interface_listing};
ghost use Rattle.listing_rules.specs.Objects.{object_listing};

use interface_records::Interface;
use listing_writers::{put_image, put_interface, put_object};
use mesa_base::{Bytes, List, OutOfMemory};
use object_files::{Image, Object};
use std::alloc::Global;

pub(crate) fn interface_text(alloc: Global, interface: &Interface) -> Result<Bytes, OutOfMemory>
    ensures { IfOk result (λ text. text ≡ interface_listing interface.now) }
{
    let mut out = List::new(alloc);
    put_interface(&mut out, interface)?;
    Ok(out)
}

pub(crate) fn object_text(alloc: Global, object: &Object) -> Result<Bytes, OutOfMemory>
    ensures { IfOk result (λ text. text ≡ object_listing object.now) }
{
    let mut out = List::new(alloc);
    put_object(&mut out, object)?;
    Ok(out)
}

pub(crate) fn image_text(alloc: Global, image: &Image) -> Result<Bytes, OutOfMemory>
    ensures { IfOk result (λ text. text ≡ image_listing image.now) }
{
    let mut out = List::new(alloc);
    put_image(&mut out, image)?;
    Ok(out)
}
