//! The image that is joined of several, but for its modules and what it still wants.

ghost use Rattle.std.specs.Prelude.{◌≡◌, All, IfOk, OnOk};
ghost use Rattle.load_checks.specs.Links.{links_of_wanted};
ghost use Rattle.loader_rules.specs.Parts.{parts};
ghost use Rattle.loader_rules.specs.Wanted.{still_wanted};
ghost use Rattle.image_loader.specs.Joining.{ArePut, IsPutBehind};
ghost use Rattle.image_loader.specs.Standing.{Fits, FitsBehind};

use crate::shifting::{put_instances, put_offers, put_started, put_tables};
use crate::standing::Standing;
use mesa_base::{List, Numbers, OutOfMemory};
use object_files::{Image, Instances, Link, LinkTable, LinkTables, Offers};
use std::alloc::Global;

/// What is joined so far, and where the next image stands.
#[derive(Drop)]
pub struct Joining {
    pub standing: Standing,
    pub instances: Instances,
    pub links: LinkTables,
    pub offered: Offers,
    pub control: Numbers,
}

// Puts what an image has behind that of those before, with these links in the place of those to its wanted items.
fn put_image(
    alloc: Global,
    image: &Image,
    given: &[Link],
    all: &mut Joining,
) -> Result<(), OutOfMemory>
    requires { Fits all.old.standing image.now }
    ensures { OnOk result (IsPutBehind image.now given.now all.old all.new) }
{
    let standing = all.standing;
    let instances = image.instances.as_slice();
    put_instances(alloc, standing, instances, &mut all.instances)?;
    put_tables(
        alloc,
        standing,
        given,
        image.links.as_slice(),
        &mut all.links,
    )?;
    put_offers(alloc, standing, image.offered.as_slice(), &mut all.offered)?;
    put_started(standing, image.control.as_slice(), &mut all.control)?;
    all.standing = standing.behind(image);
    Ok(())
}

/// What images have, one behind the other, with these links in the place of those to their wanted items.
pub fn all_put(alloc: Global, images: &[Image], links: &[LinkTable]) -> Result<Joining, OutOfMemory>
    requires fit { All FitsBehind (parts images.now) }
    requires links { links.now ≡ links_of_wanted images.now }
    ensures { IfOk result (ArePut (still_wanted images.now) images.now) }
{
    let mut all = Joining {
        standing: Standing::first(),
        instances: List::new(alloc),
        links: List::new(alloc),
        offered: List::new(alloc),
        control: List::new(alloc),
    };
    for (number, image) in images.iter().enumerate() {
        put_image(alloc, image, links[number].as_slice(), &mut all)?;
    }
    Ok(all)
}
