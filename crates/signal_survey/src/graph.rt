//! Which place follows a phrase.

ghost use Rattle.std.specs.Prelude.{◌≡◌, ◌<◌, Some, length};
ghost use Rattle.std.specs.Option.{option_copied};
ghost use Rattle.survey_rules.specs.Escapes.{IsCode};
ghost use Rattle.survey_code.specs.Sites.{IsSurveyed};
ghost use Rattle.signal_survey.specs.Follows.{IsPlace};
ghost use Rattle.signal_survey.specs.Graph.{AreSurveyed, IsNext, surveyed_of};

use crate::catching::catches;
use crate::lookups::code_of;
use code_forms::{CodeProcedure, ModuleCode};
use mesa_base::List;
use object_files::Image;
use place_walks::Place;
use signaller::SignalId;
use survey_code::{Surveyed, stops_by_ending};

/// For each module what was taken of its procedures.
pub type Surveys = List<List<Surveyed>>;

/// What was taken of a procedure of an instance.
#[tactic(auto, unfolding(machine_rules::specs::LookUps::module_number))]
pub fn surveyed_of<'a>(
    image: &Image,
    surveys: &'a Surveys,
    instance: usize,
    procedure: usize,
) -> Option<&'a Surveyed>
    ensures { option_copied result ≡ surveyed_of image.now surveys.now instance procedure }
{
    match image.instances.get(instance) {
        Some(it) => match surveys.get(it.module as usize) {
            Some(list) => list.get(procedure),
            None => None,
        },
        None => None,
    }
}

fn next_by(
    image: &Image,
    code: &ModuleCode,
    procedure: &CodeProcedure,
    surveyed: &Surveyed,
    place: Place,
    number: u32,
    signal: SignalId,
) -> Option<Place>
    requires is_code { IsCode image.now place.instance place.procedure code.now procedure.now }
    requires surveyed { IsSurveyed code.now procedure.now surveyed.now }
    requires position { place.position ≡ Some number }
    requires there { number < length procedure.now.phrases }
    ensures { IsNext image.now signal place result }
{
    stops_by_ending();
    let phrase = &procedure.phrases.as_slice()[number as usize];
    let passing = &surveyed.passings.as_slice()[number as usize];
    if catches(image, code, place.instance, phrase, passing, signal) {
        return None;
    }
    Some(Place {
        instance: place.instance,
        procedure: place.procedure,
        position: passing.beyond,
    })
}

/// The place beyond a phrase, where the phrase lets the signal past.
pub fn next_of(
    image: &Image,
    surveys: &Surveys,
    place: Place,
    number: u32,
    signal: SignalId,
) -> Option<Place>
    requires surveyed { AreSurveyed image.now surveys.now }
    requires place { IsPlace image.now place }
    requires position { place.position ≡ Some number }
    ensures { IsNext image.now signal place result }
{
    let Some(code) = code_of(image, place.instance as usize) else {
        unreachable!()
    };
    let Some(procedure) = code.procedures.get(place.procedure as usize) else {
        unreachable!()
    };
    let at = surveyed_of(
        image,
        surveys,
        place.instance as usize,
        place.procedure as usize,
    );
    let Some(surveyed) = at else { unreachable!() };
    next_by(image, code, procedure, surveyed, place, number, signal)
}
