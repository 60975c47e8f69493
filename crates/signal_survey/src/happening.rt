//! The events of an image: what its instructions may do by which a signal comes.

ghost use Rattle.std.specs.Prelude.{◌≡◌, ◌<◌, Some, IfOk, OnOk, length, []};
ghost use Rattle.machine_rules.specs.LookUps.{code_of};
ghost use Rattle.machine_ready.specs.Order.{ImageInOrder};
ghost use Rattle.signal_survey.specs.Adding.{Adds, Of};
ghost use Rattle.signal_survey.specs.Graph.{AreSurveyed};
ghost use Rattle.signal_survey.specs.Happenings.{HappensBefore, HappensBelow, HappensIn, SiteHappens};

use crate::graph::{Surveys, surveyed_of};
use crate::shapes::valid_code;
use code_forms::ModuleCode;
use mesa_base::{List, OutOfMemory};
use object_files::Image;
use place_walks::Place;
use std::alloc::Global;
use survey_code::{Event, Site};

/// An event of an instance, and where it is.
#[derive(Clone, Copy)]
pub struct Happening {
    pub place: Place,
    pub event: Event,
}

// Puts the events of sites of a procedure to the list.
fn add_sites(
    instance: u32,
    procedure: u32,
    sites: &[Site],
    list: &mut List<Happening>,
) -> Result<(), OutOfMemory>
    ensures { OnOk result (Adds (Of (SiteHappens instance procedure) sites.now) list.old list.new) }
{
    for site in sites {
        let place = Place {
            instance,
            procedure,
            position: site.position,
        };
        list.push(Happening {
            place,
            event: site.event,
        })?;
    }
    Ok(())
}

fn add_procedure(
    image: &Image,
    surveys: &Surveys,
    code: &ModuleCode,
    instance: u32,
    procedure: u32,
    list: &mut List<Happening>,
) -> Result<(), OutOfMemory>
    requires surveyed { AreSurveyed image.now surveys.now }
    requires code { code_of image.now instance ≡ Some code.now }
    requires there { procedure < length code.now.procedures }
    ensures { OnOk result (Adds (HappensIn image.now instance procedure) list.old list.new) }
{
    let at = surveyed_of(image, surveys, instance as usize, procedure as usize);
    let Some(surveyed) = at else { unreachable!() };
    add_sites(instance, procedure, surveyed.sites.as_slice(), list)
}

fn add_instance(
    image: &Image,
    surveys: &Surveys,
    code: &ModuleCode,
    instance: u32,
    list: &mut List<Happening>,
) -> Result<(), OutOfMemory>
    requires surveyed { AreSurveyed image.now surveys.now }
    requires code { code_of image.now instance ≡ Some code.now }
    ensures { OnOk result (Adds (HappensBelow image.now instance (length code.now.procedures)) list.old list.new) }
{
    for procedure in 0..code.procedures.len() {
        add_procedure(image, surveys, code, instance, procedure as u32, list)?;
    }
    Ok(())
}

/// The events of the instances of an image.
pub fn happenings(
    alloc: Global,
    image: &Image,
    surveys: &Surveys,
) -> Result<List<Happening>, OutOfMemory>
    requires order { ImageInOrder image.now }
    requires surveyed { AreSurveyed image.now surveys.now }
    ensures { IfOk result (Adds (HappensBefore image.now (length image.now.instances)) []) }
{
    let mut list = List::new(alloc);
    for instance in 0..image.instances.len() {
        let code = valid_code(image, instance);
        add_instance(image, surveys, code, instance as u32, &mut list)?;
    }
    Ok(list)
}
