//! The signals of an image.

ghost use Rattle.std.specs.Prelude.{◌≡◌, ◌+◌, [], ◌∷◌, AllPairs, Contains, IfOk, OnOk};
ghost use Rattle.signaller.specs.declared.signal_id.SignalId.{SignalId as TheSignal};
ghost use Rattle.signaller.specs.declared.signal_id.SignalId.TheVariants.{BoundsFault, ZeroDivisor, NoInput, Unnamed};
ghost use Rattle.machine_ready.specs.Order.{ImageInOrder};
ghost use Rattle.survey_rules.specs.Survey.{Precedes};
ghost use Rattle.signal_survey.specs.Ranges.{HasSignal};
ghost use Rattle.signal_survey.specs.Signals.{ArePreceding};

use crate::lookups::code_of;
use mesa_base::{List, OutOfMemory};
use object_files::Image;
use signaller::SignalId;
use std::alloc::Global;

fn predeclared(alloc: Global) -> Result<List<SignalId>, OutOfMemory>
    ensures { IfOk result (λ signals. signals ≡ BoundsFault ∷ ZeroDivisor ∷ NoInput ∷ Unnamed ∷ []) }
{
    let signals = [
        SignalId::BoundsFault,
        SignalId::ZeroDivisor,
        SignalId::NoInput,
        SignalId::Unnamed,
    ];
    List::from_slice(alloc, &signals)
}

// Puts those of an instance behind.
fn add_own(image: &Image, signals: &mut List<SignalId>, instance: u32) -> Result<(), OutOfMemory>
    requires { ArePreceding image.now instance 0 signals.old }
    ensures { OnOk result (ArePreceding image.now (instance + 1) 0 signals.new) }
{
    let Some(code) = code_of(image, instance as usize) else {
        return Ok(());
    };
    for number in 0..code.signals.len() {
        signals.push(SignalId::Own(instance, number as u32))?;
    }
    Ok(())
}

/// The predeclared signals and those of the instances, in order.
pub fn signals_of(alloc: Global, image: &Image) -> Result<List<SignalId>, OutOfMemory>
    requires { ImageInOrder image.now }
    ensures in_order { IfOk result (AllPairs Precedes) }
    ensures all { IfOk result (λ signals. (s : TheSignal) → HasSignal image.now s → Contains signals s) }
{
    let mut signals = predeclared(alloc)?;
    for instance in 0..image.instances.len() {
        add_own(image, &mut signals, instance as u32)?;
    }
    Ok(signals)
}
