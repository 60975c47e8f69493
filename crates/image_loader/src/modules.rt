//! The modules of images, which are moved.

ghost use Rattle.std.specs.Prelude.{◌≡◌, ◌++◌, IfOk, OnOk};
ghost use Rattle.loader_rules.specs.Parts.{modules_of};

use interface_records::Wanteds;
use loader_rules::Images;
use mesa_base::{List, OutOfMemory};
use object_files::{Image, Objects};
use std::alloc::Global;
use std::mem::drop;

/// Lets go of wanted items.
pub fn let_wanteds_go(wanteds: Wanteds) {
    drop(wanteds);
}

/// Lets go of images.
pub fn let_images_go(images: Images) {
    drop(images);
}

fn put_modules(all: &mut Objects, modules: Objects) -> Result<(), OutOfMemory>
    ensures { OnOk result (all.new ≡ all.old ++ modules) }
{
    all.append(modules)
}

// All but its modules is let go.
fn put_image(all: &mut Objects, image: Image) -> Result<(), OutOfMemory>
    ensures { OnOk result (all.new ≡ all.old ++ image.modules) }
{
    let Image {
        modules,
        wanted,
        instances: _,
        links: _,
        offered: _,
        control: _,
    } = image;
    let_wanteds_go(wanted);
    put_modules(all, modules)
}

/// The modules of images, one behind the other. They are moved; all else is let go.
pub fn modules_of(alloc: Global, images: Images) -> Result<Objects, OutOfMemory>
    ensures { IfOk result (λ modules. modules ≡ modules_of images.items) }
{
    let mut all = List::new(alloc);
    for image in images {
        put_image(&mut all, image)?;
    }
    Ok(all)
}
