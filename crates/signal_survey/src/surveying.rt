//! The survey of an image.

ghost use Rattle.std.specs.Prelude.{IfOk};
ghost use Rattle.machine_ready.specs.Order.{ImageInOrder};
ghost use Rattle.survey_rules.specs.Survey.{IsSurvey};

use crate::calling::callers_of;
use crate::listing::escaping;
use crate::raising::raisers_of;
use crate::signals::signals_of;
use crate::surveys::surveys_of;
use crate::walks::walk_of;
use mesa_base::{List, OutOfMemory};
use object_files::Image;
use signaller::SignalId;
use std::alloc::Global;

/// The signals that may escape an image, in their order: the predeclared ones, then those of instances by instance and number.
pub type Escapes = List<SignalId>;

/// The signals that may escape the image, by its code alone (rule of this project). It takes memory, and is refused where there is none left.
pub fn survey(alloc: Global, image: &Image) -> Result<Escapes, OutOfMemory>
    requires { ImageInOrder image.now }
    ensures { IfOk result (IsSurvey image.now) }
{
    let surveys = surveys_of(alloc, image)?;
    let raisers = raisers_of(alloc, image, &surveys)?;
    let callers = callers_of(alloc, image, &surveys)?;
    let signals = signals_of(alloc, image)?;
    let mut walk = walk_of(alloc, image)?;
    escaping(
        alloc,
        image,
        &surveys,
        &raisers,
        &callers,
        &mut walk,
        signals.as_slice(),
    )
}
