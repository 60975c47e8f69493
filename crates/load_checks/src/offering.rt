//! What an entry of an image offers.

ghost use Rattle.std.specs.Prelude.{◌≡◌, ◌+◌, ◌≤◌, length};
ghost use Rattle.std.specs.Option.{option_copied};
ghost use Rattle.mesa_base.specs.declared.limits.TheConstants.{INSTANCES};
ghost use Rattle.loader_rules.specs.Exporters.{export_of, module_at};
ghost use Rattle.load_checks.specs.Givers.{offered_at, offerings_shown};

use mesa_base::{Name, Path};
use mesa_types::Export;
use object_files::{Image, Instance, Object, Offer};

/// An export that is offered under the name of a record, with the number of its image, and that of its instance in the loaded image.
#[derive(Clone, Copy)]
pub struct Offering<'a> {
    pub image: u32,
    pub instance: u32,
    pub path: &'a Path,
    pub record_name: &'a Name,
    pub export: &'a Export,
}

/// The module of an instance.
pub fn module_of<'a>(image: &'a Image, instance: Option<&'a Instance>) -> Option<&'a Object>
    ensures { option_copied result ≡ module_at image.now (option_copied instance.entry) }
{
    match instance {
        Some(instance) => image.modules.get(instance.module as usize),
        None => None,
    }
}

/// The export that an entry offers.
pub fn export_of<'a>(image: &'a Image, offer: &Offer) -> Option<&'a Export>
    ensures { option_copied result ≡ export_of image.now offer.now }
{
    let instance = image.instances.get(offer.instance as usize);
    match module_of(image, instance) {
        Some(object) => object.shape.exports.get(offer.export as usize),
        None => None,
    }
}

/// What an entry offers, of the image of this number with so many instances before it.
pub fn offering_of<'a>(
    image: &'a Image,
    number: u32,
    before: u32,
    offer: &'a Offer,
) -> Option<Offering<'a>>
    requires { before + length image.now.instances ≤ INSTANCES }
    ensures { offerings_shown result ≡ offered_at number before image.now offer.now (export_of image.now offer.now) }
{
    let instance = image.instances.get(offer.instance as usize)?;
    let export = export_of(image, offer)?;
    Some(Offering {
        image: number,
        instance: before + offer.instance,
        path: &instance.path,
        record_name: &offer.name,
        export,
    })
}
