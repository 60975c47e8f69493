//! Images that are loaded as one.

ghost use Rattle.std.specs.Prelude.{◌≡◌, ◌≢◌, ◌≤◌, All, IfErr, IfOk, Ok, Err, length};
ghost use Rattle.load_checks.specs.Links.{AreResolved};
ghost use Rattle.loader_rules.specs.declared.fault.LoadFault.{LoadFault as Fault};
ghost use Rattle.loader_rules.specs.declared.limits.TheConstants.{MOST_IMAGES};
ghost use Rattle.loader_rules.specs.Laws.{HasFile};
ghost use Rattle.loader_rules.specs.LoadFaults.{HasLoadFault};
ghost use Rattle.loader_rules.specs.Loaded.{Loaded, IsJoined};
ghost use Rattle.loader_rules.specs.Wanted.{still_wanted};
ghost use Rattle.object_files.specs.declared.image.Image.{Image as TheImage};
ghost use Rattle.image_loader.specs.Joining.{ArePut};

use crate::joining::{Joining, all_put};
use crate::modules::{let_images_go, let_wanteds_go, modules_of};
use interface_records::Wanteds;
use load_checks::{Resolved, resolve};
use loader_rules::{Images, LoadFault, loads_come_once};
use object_files::Image;
use std::alloc::Global;

// The image of these lists and of the modules of the images.
fn with_modules(
    alloc: Global,
    images: Images,
    wanted: Wanteds,
    joining: Joining,
) -> Result<Image, LoadFault>
    requires wanted { wanted ≡ still_wanted images.items }
    requires put { ArePut (still_wanted images.items) images.items joining }
    ensures joined { IfOk result (IsJoined images.items) }
    ensures memory { IfErr result (λ e. e ≡ LoadFault.Memory) }
{
    match modules_of(alloc, images) {
        Ok(modules) => {
            let Joining {
                standing: _,
                instances,
                links,
                offered,
                control,
            } = joining;
            Ok(Image {
                modules,
                wanted,
                instances,
                links,
                offered,
                control,
            })
        }
        Err(_) => {
            let_wanteds_go(wanted);
            Err(LoadFault::Memory)
        }
    }
}

// The image that is joined of images without a fault.
fn joined(alloc: Global, images: Images, resolved: Resolved) -> Result<Image, LoadFault>
    requires few { length images.items ≤ MOST_IMAGES }
    requires filed { All (HasFile 2) images.items }
    requires resolved { AreResolved images.items resolved }
    ensures joined { IfOk result (IsJoined images.items) }
    ensures memory { IfErr result (λ e. e ≡ LoadFault.Memory) }
{
    let Resolved { wanted, links } = resolved;
    match all_put(alloc, images.as_slice(), links.as_slice()) {
        Ok(joining) => with_modules(alloc, images, wanted, joining),
        Err(_) => {
            let_images_go(images);
            let_wanteds_go(wanted);
            Err(LoadFault::Memory)
        }
    }
}

/// The image that is loaded of at most 16 images that files hold, in this order (rule of this project); or the first fault of the first image that
/// has one; or Memory. The modules are moved into the image, and all else of the images is let go.
pub fn load(alloc: Global, images: Images) -> Result<Image, LoadFault>
    requires few { length images.items ≤ MOST_IMAGES }
    requires filed { All (HasFile 2) images.items }
    ensures found { IfOk result (Loaded images.items) }
    ensures fault { IfErr result (λ e. e ≢ LoadFault.Memory → HasLoadFault images.items e) }
    ensures only { (i : TheImage) → Loaded images.items i → result ≢ Err LoadFault.Memory → result ≡ Ok i }
    ensures first { (e : Fault) → HasLoadFault images.items e → result ≢ Err LoadFault.Memory → result ≡ Err e }
{
    loads_come_once();
    match resolve(alloc, &images) {
        Ok(resolved) => joined(alloc, images, resolved),
        Err(fault) => {
            let_images_go(images);
            Err(fault)
        }
    }
}
