//! Which phrases let a signal past.

ghost use Rattle.std.specs.Prelude.{◌≡◌, ◌↔◌, IsTrue, Some};
ghost use Rattle.machine_rules.specs.LookUps.{code_of};
ghost use Rattle.machine_rules.specs.Signals.{takes_back, takes_of};
ghost use Rattle.survey_code.specs.Sites.{StopsBy};
ghost use Rattle.signal_survey.specs.Catching.{CatchesBy};

use crate::fitting::first_arm;
use crate::lookups::code_of;
use code_forms::{CodeKind, ModuleCode, Phrase};
use object_files::Image;
use signaller::SignalId;
use survey_code::{Ending, Passing};

#[tactic(auto, unfolding(machine_rules::specs::Signals::takes_of))]
fn takes_of(kind: CodeKind, results: u16, words: u16) -> bool
    ensures { result ≡ takes_of kind results words }
{
    match kind {
        CodeKind::Signal => results == words,
        CodeKind::Procedure | CodeKind::Error => false,
    }
}

// Whether the signal takes back so many words.
#[tactic(auto, unfolding(machine_rules::specs::Signals::takes_back, machine_rules::specs::Signals::takes_in, machine_rules::specs::LookUps::signal_of))]
fn takes_back(image: &Image, signal: SignalId, words: u16) -> bool
    ensures { result ≡ takes_back image.now signal words }
{
    match signal {
        SignalId::Own(instance, number) => match code_of(image, instance as usize) {
            Some(code) => match code.signals.get(number as usize) {
                Some(entry) => takes_of(entry.kind, entry.results, words),
                None => false,
            },
            None => false,
        },
        _ => false,
    }
}

fn stops(image: &Image, ending: Ending, signal: SignalId) -> bool
    ensures { IsTrue result ↔ StopsBy image.now signal ending }
{
    match ending {
        Ending::Stops => true,
        Ending::Resumes(words) => takes_back(image, signal, words),
        Ending::Passes => false,
    }
}

/// Whether a phrase of an instance with this code stops the signal: the first arm that fits it does, by how it may end.
pub fn catches(
    image: &Image,
    code: &ModuleCode,
    instance: u32,
    phrase: &Phrase,
    passing: &Passing,
    signal: SignalId,
) -> bool
    requires { code_of image.now instance ≡ Some code.now }
    ensures { IsTrue result ↔ CatchesBy image.now instance phrase.now passing.now signal }
{
    match first_arm(image, code, instance, signal, phrase.arms.as_slice()) {
        Some(arm) => match passing.endings.get(arm) {
            Some(ending) => stops(image, *ending, signal),
            None => false,
        },
        None => false,
    }
}
